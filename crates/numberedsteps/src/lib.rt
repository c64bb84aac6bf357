// The work steps on numbered units, in the image: join, split, swap, fuse.
#![tactic(auto)]

pub mod pairs;

ghost use Rattle.graph.specs.Refused.{number_in};
ghost use Rattle.graph.specs.Steps.{join, split, swap, fuse};
ghost use Rattle.flat.specs.Inner.FlatSteps.{flat_step};
ghost use Rattle.state.specs.Inner.State.{flat_in};
ghost use Rattle.state.specs.Inner.ValidImage.{ValidImage, Works};

use crate::pairs::{may_fuse, may_swap, merge};
use graph::refusal::Refusal;
use state::ops;
use units::{is_at, two_at, unit_at};

// The unit and the next become one.
pub fn join(image: &mut [u8], k: u8, unit: u32) -> Result<(), Refusal>
    requires { ValidImage image.old }
    ensures { Works (flat_step (join k unit) (flat_in image.old)) image.old image.new (number_in result) }
{
    let place = unit_at(image, k, unit)?;
    if !is_at(image, k, place.end) {
        return Err(Refusal::NoUnit);
    }
    ops::set_opens(image, place.end, false);
    Ok(())
}

// The unit is cut after that many operations.
pub fn split(image: &mut [u8], k: u8, unit: u32, after: u32) -> Result<(), Refusal>
    requires { ValidImage image.old }
    ensures { Works (flat_step (split k unit after) (flat_in image.old)) image.old image.new (number_in result) }
{
    let place = unit_at(image, k, unit)?;
    if after < 1 {
        return Err(Refusal::NotAllowed);
    }
    let first = after as usize;
    if place.end - place.start <= first {
        return Err(Refusal::NotAllowed);
    }
    ops::set_opens(image, place.start + first, true);
    Ok(())
}

// The unit and the next, of one operation each, change places.
pub fn swap(image: &mut [u8], k: u8, unit: u32) -> Result<(), Refusal>
    requires { ValidImage image.old }
    ensures { Works (flat_step (swap k unit) (flat_in image.old)) image.old image.new (number_in result) }
{
    let place = two_at(image, k, unit)?;
    let a = ops::operation_at(image, place.start);
    let b = ops::operation_at(image, place.end);
    if !may_swap(a, b) {
        return Err(Refusal::NotAllowed);
    }
    ops::exchange(image, place.start, place.end);
    Ok(())
}

// The unit and the next, of one map each, become one.
pub fn fuse(image: &mut [u8], k: u8, unit: u32) -> Result<(), Refusal>
    requires { ValidImage image.old }
    ensures { Works (flat_step (fuse k unit) (flat_in image.old)) image.old image.new (number_in result) }
{
    let place = two_at(image, k, unit)?;
    let a = ops::operation_at(image, place.start);
    let b = ops::operation_at(image, place.end);
    if !may_fuse(a, b) {
        return Err(Refusal::NotAllowed);
    }
    ops::put_operation(image, place.start, merge(a, b));
    ops::remove(image, place.end);
    Ok(())
}
