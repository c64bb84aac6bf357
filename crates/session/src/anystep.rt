// A work step on an image that holds a valid session, of whichever kind.
ghost use Rattle.graph.specs.Steps.{step};
ghost use Rattle.graph.specs.Refused.{number_in};
ghost use Rattle.lines.specs.Inner.Answers.{step_named};
ghost use Rattle.valid.specs.Inner.Decoded.{session_of};
ghost use Rattle.state.specs.Inner.ValidImage.{ValidImage, Serves};

use calls::admit::admit;
use graph::refusal::Refusal;
use headsteps::{finish, move_on, realise};
use lines::step::WorkStep;
use numberedsteps::{fuse, join, split, swap};

// Takes the step where it is allowed.
pub fn take(image: &mut [u8], w: WorkStep) -> Result<(), Refusal>
    requires { ValidImage image.old }
    ensures { (Serves (step (step_named w) (session_of image.old)) image.old image.new (number_in result)) × (ValidImage image.new) }
{
    match w {
        WorkStep::Admit => admit(image),
        WorkStep::Realise(k) => realise(image, k),
        WorkStep::Move(k) => move_on(image, k),
        WorkStep::Finish(k) => finish(image, k),
        WorkStep::Join(k, unit) => join(image, k, unit),
        WorkStep::Split(k, unit, after) => split(image, k, unit, after),
        WorkStep::Swap(k, unit) => swap(image, k, unit),
        WorkStep::Fuse(k, unit) => fuse(image, k, unit),
    }
}
