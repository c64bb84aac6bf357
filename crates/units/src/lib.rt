// Units by number, found in the image.
#![tactic(auto)]

ghost use Rattle.std.specs.Prelude.{◌≡◌, length};
ghost use Rattle.flat.specs.Inner.Queues.{first_index, is_at};
ghost use Rattle.flat.specs.Inner.Nested.{at_place};
ghost use Rattle.flat.specs.Inner.FlatSteps.{unit_start};
ghost use Rattle.state.specs.Inner.Operations.{Bounded};
ghost use Rattle.state.specs.Inner.State.{flat_in, Proper};
ghost use Rattle.units.specs.Inner.Numbered.{locate, locate_two, spotted};

use graph::refusal::Refusal;
use state::nodes::is_known;
use state::ops;

// Where a unit starts and ends, in the queue.
#[derive(Clone, Copy, Debug, PartialEq, Eq)]
pub struct UnitPlace {
    pub start: usize,
    pub end: usize,
}

// An operation of station k stands at p.
pub fn is_at(image: &[u8], k: u8, p: usize) -> bool
    requires { Proper image.now }
    ensures { result ≡ is_at k p (flat_in image.now).queue }
{
    p < ops::total(image) && ops::place_at(image, p) == k
}

// Where that unit starts, or the queue's end. It goes from unit to unit, and stops after the last.
fn unit_start(image: &[u8], k: u8, unit: u32) -> usize
    requires { Proper image.now }
    ensures { Bounded (unit_start k unit (first_index (at_place k) (flat_in image.now).queue) (flat_in image.now).queue) (length (flat_in image.now).queue) result }
{
    let n = ops::total(image);
    if unit == 0 {
        return n;
    }
    let mut p = ops::first_at(image, k);
    for _ in 1..unit {
        if !is_at(image, k, p) {
            return n;
        }
        p = ops::unit_end(image, k, p);
    }
    p
}

// The unit with that number.
pub fn unit_at(image: &[u8], k: u8, unit: u32) -> Result<UnitPlace, Refusal>
    requires { Proper image.now }
    ensures { locate k unit (flat_in image.now) ≡ spotted result }
{
    if !is_known(image, k) {
        return Err(Refusal::NoNode);
    }
    let start = unit_start(image, k, unit);
    if !is_at(image, k, start) {
        return Err(Refusal::NoUnit);
    }
    let end = ops::unit_end(image, k, start);
    Ok(UnitPlace { start, end })
}

// The same where that unit and the next have one operation each: the one at the start, the other at the end.
pub fn two_at(image: &[u8], k: u8, unit: u32) -> Result<UnitPlace, Refusal>
    requires { Proper image.now }
    ensures { locate_two k unit (flat_in image.now) ≡ spotted result }
{
    let place = unit_at(image, k, unit)?;
    let next = place.end;
    if !is_at(image, k, next) {
        return Err(Refusal::NoUnit);
    }
    if place.start + 1 != next {
        return Err(Refusal::NotAllowed);
    }
    let end = ops::unit_end(image, k, next);
    if next + 1 != end {
        return Err(Refusal::NotAllowed);
    }
    Ok(place)
}
