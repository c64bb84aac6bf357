// Target lists: keys drawn, sorted, repeats dropped.
ghost use Rattle.std.specs.Prelude.{◌≡◌, ◌≤◌};
ghost use Rattle.graph.specs.Packed.{listed, packed};
ghost use Rattle.load.specs.Load.{sorted};
ghost use Rattle.load.specs.Inner.Values.{KeysAre, TargetsAre};

use crate::draws::{draw, key, next};
use graph::keys::Keys;

// Keys, and the state that their draws leave.
#[derive(Clone, Copy)]
pub struct DrawnKeys {
    pub keys: Keys,
    pub state: u32,
}

// So many keys, as they are drawn.
fn keys_drawn(n: u32, state: u32) -> DrawnKeys
    requires { n ≤ 8 }
    ensures { KeysAre n state result }
{
    let mut keys = Keys::none();
    let mut s = state;
    for _ in 0..n {
        s = next(s);
        keys = keys.linked(key(s));
    }
    DrawnKeys { keys, state: s }
}

// A key that was drawn twice is found once.
fn sorted(drawn: Keys) -> Keys
    ensures { result ≡ packed (sorted (listed drawn)) }
{
    let mut keys = Keys::none();
    for k in 1..=64 {
        if drawn.contains(k) {
            keys = keys.linked(k);
        }
    }
    keys
}

// A target list drawn from this state on.
#[tactic(auto, using(graph::proofs::KeyLaws::listed_packed))]
pub fn targets_drawn(state: u32) -> DrawnKeys
    ensures { TargetsAre state result }
{
    let first = next(state);
    let d = keys_drawn(draw(first) % 9, first);
    DrawnKeys {
        keys: sorted(d.keys),
        state: d.state,
    }
}
