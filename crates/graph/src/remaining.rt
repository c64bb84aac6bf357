// What an operation has yet to act at: listed keys, or all nodes (`to=all`).
ghost use Rattle.std.specs.Prelude.{◌≡◌, cond};
ghost use Rattle.graph.specs.Targets.{these, all, reaches, struck, none_left, left_of, disjoint_targets, same_targets};
ghost use Rattle.graph.specs.Packed.{listed, packed, from_fields, targets_in, packed_targets};

use crate::keys::Keys;

// All nodes, `done` at this station or not, or the keys listed that are left.
#[derive(Clone, Copy, Debug)]
pub enum Remaining {
    All { done: bool },
    Listed(Keys),
}

impl Remaining {
    // What three fields say: all nodes, where the first says so, done or not; else the keys, and then nothing is done.
    pub fn from_fields(over_all: bool, done: bool, keys: Keys) -> Self
        ensures fields { result ≡ from_fields over_all done keys }
        ensures targets { targets_in result ≡ cond over_all (all done) (these (listed keys)) }
    {
        if over_all {
            Remaining::All { done }
        } else {
            Remaining::Listed(keys)
        }
    }

    // Is the node with this key a target?
    pub fn reaches(self, key: u8) -> bool
        ensures { result ≡ reaches key (targets_in self) }
    {
        match self {
            Remaining::All { done } => !done,
            Remaining::Listed(keys) => keys.contains(key),
        }
    }

    // After the act at the node with this key.
    pub fn struck(self, key: u8) -> Self
        ensures { result ≡ packed_targets (struck key (targets_in self)) }
    {
        match self {
            Remaining::All { .. } => Remaining::All { done: true },
            Remaining::Listed(keys) => Remaining::Listed(keys.strike(key)),
        }
    }

    pub fn none_left(self) -> bool
        ensures { result ≡ none_left (targets_in self) }
    {
        match self {
            Remaining::All { .. } => false,
            Remaining::Listed(keys) => keys.as_slice().is_empty(),
        }
    }

    // A result's `left`.
    pub fn left(self) -> Keys
        requires { self ≡ packed_targets (targets_in self) }
        ensures { result ≡ packed (left_of (targets_in self)) }
    {
        match self {
            Remaining::All { .. } => Keys::none(),
            Remaining::Listed(keys) => keys,
        }
    }

    // Do they share no target?
    pub fn disjoint(self, other: Remaining) -> bool
        ensures { result ≡ disjoint_targets (targets_in self) (targets_in other) }
    {
        match (self, other) {
            (Remaining::All { .. }, _) => other.none_left(),
            (_, Remaining::All { .. }) => self.none_left(),
            (Remaining::Listed(keys), Remaining::Listed(others)) => keys.disjoint(others),
        }
    }

    pub fn same(self, other: Remaining) -> bool
        ensures { result ≡ same_targets (targets_in self) (targets_in other) }
    {
        match (self, other) {
            (Remaining::All { done }, Remaining::All { done: other_done }) => done == other_done,
            (Remaining::Listed(keys), Remaining::Listed(others)) => keys.same(others),
            (Remaining::All { .. }, Remaining::Listed(_))
            | (Remaining::Listed(_), Remaining::All { .. }) => false,
        }
    }
}
