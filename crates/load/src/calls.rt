// A call drawn from a state on.
ghost use Rattle.std.specs.Prelude.{◌≡◌};
ghost use Rattle.load.specs.Load.{call_of, call_drawn};
ghost use Rattle.load.specs.Inner.Values.{CallWith, drawn_by_value};

use crate::draws::{draw, key, next};
use crate::kind::{Kind, kind_of};
use crate::targets::targets_drawn;
use graph::keys::Keys;

// The call's kind, its numbers in the line's order (the second 0 where the kind has one only) and its targets; and the
// state that its draws leave.
#[derive(Clone, Copy)]
pub struct DrawnCall {
    pub kind: Kind,
    pub x: u32,
    pub y: u32,
    pub to: Keys,
    pub state: u32,
}

// The call with targets drawn from this state on.
#[tactic(auto, using(graph::proofs::KeyLaws::listed_packed))]
fn with_targets(kind: Kind, x: u32, y: u32, state: u32) -> DrawnCall
    ensures { CallWith kind x y state result }
{
    let t = targets_drawn(state);
    DrawnCall {
        kind,
        x,
        y,
        to: t.keys,
        state: t.state,
    }
}

// The fields in line order: the first draw picked the kind, so they begin with the second.
fn call_of(kind: Kind, state: u32) -> DrawnCall
    ensures { drawn_by_value result ≡ call_of kind state }
{
    let second = next(next(state));
    let third = next(second);
    match kind {
        Kind::Add => DrawnCall {
            kind,
            x: draw(second),
            y: 0,
            to: Keys::none(),
            state: second,
        },
        Kind::Map => with_targets(kind, draw(second), draw(third), third),
        Kind::Link | Kind::Unlink => with_targets(kind, u32::from(key(second)), 0, second),
        Kind::Sum | Kind::Top | Kind::Pick => with_targets(kind, draw(second), 0, second),
        Kind::Near => with_targets(kind, u32::from(key(second)), draw(third), third),
    }
}

pub fn call_drawn(state: u32) -> DrawnCall
    ensures { drawn_by_value result ≡ call_drawn state }
{
    call_of(kind_of(draw(next(state))), state)
}
