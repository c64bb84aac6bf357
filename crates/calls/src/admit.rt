// The first waiting call: an add makes its node, another call enters the first streamlet.
ghost use Rattle.std.specs.Prelude.{◌≡◌, true, false, ◌+◌, ◌<◌, length, get_or};
ghost use Rattle.graph.specs.Steps.{admit};
ghost use Rattle.graph.specs.OneAtATime.{is_op};
ghost use Rattle.graph.specs.Refused.{number_in};
ghost use Rattle.flat.specs.Inner.FlatSteps.{no_op, flat_step};
ghost use Rattle.state.specs.Inner.State.{flat_in, Proper, Shows};
ghost use Rattle.state.specs.Inner.ValidImage.{ValidImage, Works};
ghost use Rattle.calls.specs.Inner.Admission.{admitted_at};

use graph::keys::Keys;
use graph::refusal::Refusal;
use headsteps::finish_at;
use state::{nodes, ops, results};

// The add at w makes its node, and its result is the node's key.
fn admit_add(image: &mut [u8], w: usize)
    requires { (Proper image.old) × (w < length (flat_in image.old).queue) × (is_op (get_or (flat_in image.old).queue w no_op).call ≡ false) × (length (flat_in image.old).nodes < 64) × (length (flat_in image.old).results < 64) }
    ensures { Shows (admitted_at w (flat_in image.old)) image.new }
{
    let a = ops::add_at(image, w);
    let n = nodes::total(image);
    let left = Keys::none();
    nodes::append_body(image, a.value);
    ops::remove(image, w);
    results::store_one(image, a.label, n as u32 + 1, left);
}

// With no nodes the operation at w finishes at once.
fn admit_operation(image: &mut [u8], w: usize)
    requires { (ValidImage image.old) × (w < length (flat_in image.old).queue) × (is_op (get_or (flat_in image.old).queue w no_op).call ≡ true) }
    ensures { Shows (admitted_at w (flat_in image.old)) image.new }
{
    let n = nodes::total(image);
    if n == 0 {
        finish_at(image, w, w + 1);
        return;
    }
    ops::set_place(image, w, n as u8);
}

pub fn admit(image: &mut [u8]) -> Result<(), Refusal>
    requires { ValidImage image.old }
    ensures { Works (flat_step admit (flat_in image.old)) image.old image.new (number_in result) }
{
    let w = ops::first_at(image, 65);
    if w == ops::total(image) {
        return Err(Refusal::NoUnit);
    }
    if ops::is_add_at(image, w) {
        admit_add(image, w);
        return Ok(());
    }
    admit_operation(image, w);
    Ok(())
}
