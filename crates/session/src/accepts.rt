// Acceptance of a call that was read, on an image that holds a valid session.
ghost use Rattle.graph.specs.Acceptance.{accept};
ghost use Rattle.graph.specs.Refused.{number_in};
ghost use Rattle.valid.specs.Inner.Decoded.{session_of};
ghost use Rattle.state.specs.Inner.ValidImage.{ValidImage, Serves};
ghost use Rattle.session.specs.Inner.Accepts.{Good, call_of};

use calls::accept::{accept_add, accept_operation};
use graph::act::Act;
use graph::affine::Affine;
use graph::refusal::Refusal;
use lines::call::{Call, CallKind};

// Gives the call the next label and a place at the end of the top stream; or refuses it with 13, 14 or 15.
pub fn accept(image: &mut [u8], call: Call) -> Result<(), Refusal>
    requires { (ValidImage image.old) × (Good (call_of call) call.to) }
    ensures { (Serves (accept (call_of call) (session_of image.old)) image.old image.new (number_in result)) × (ValidImage image.new) }
{
    let Call { kind, x, y, to } = call;
    match kind {
        CallKind::Add => accept_add(image, x),
        CallKind::Map => accept_operation(image, Act::Map(Affine { a: x, b: y }), 0, to),
        CallKind::Link => accept_operation(image, Act::Link(x as u8), 0, to),
        CallKind::Unlink => accept_operation(image, Act::Unlink(x as u8), 0, to),
        CallKind::Sum => accept_operation(image, Act::Sum, x, to),
        CallKind::Top => accept_operation(image, Act::Top, x, to),
        CallKind::Pick => accept_operation(image, Act::Pick, x, to),
        CallKind::Near => accept_operation(image, Act::Near(x as u8), y, to),
        CallKind::Unmap => accept_operation(
            image,
            Act::Map(Affine::inverse(Affine { a: x, b: y })),
            0,
            to,
        ),
    }
}
