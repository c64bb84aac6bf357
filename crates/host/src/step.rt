// A step line: a work step or drain, counted in the tally that the panel lends.
ghost use Rattle.std.specs.Prelude.{◌≡◌, List};
ghost use Rattle.graph.specs.Steps.{Step};
ghost use Rattle.lines.specs.Forms.{line_at};
ghost use Rattle.panel.specs.Returned.{returned_number};
ghost use Rattle.panel.specs.Tally.{counted};
ghost use Rattle.host.specs.Entries.{Steps};
ghost use Rattle.host.specs.Inner.Taking.{taken_answer, DrainCounted, Takes};

use crate::lent::image_refusal;
use graph::refusal::Refusal;
use lines::step::{StepRequest, parse_step, tally_place};
use panel::returned::returned_number;
use panel::tally::{Tally, raise};
use session::anystep::take;
use session::drain::{Counts, drain};
use text::cut::part_to;

// What a step line that is not refused comes to: one step, whose kind has this place in the tally; or a drain, with its counts.
#[derive(Clone, Copy, Debug, PartialEq, Eq)]
pub enum LineTaken {
    One(u8),
    Drain(Counts),
}

// Takes what a step line asks for.
fn step_by(image: &mut [u8], line: &[u8]) -> Result<LineTaken, Refusal>
    ensures { Takes image.old line.now result image.new }
{
    image_refusal(image)?;
    let asked = parse_step(line)?;
    match asked {
        StepRequest::Drain => Ok(LineTaken::Drain(drain(image))),
        StepRequest::Work(w) => {
            take(image, w)?;
            Ok(LineTaken::One(tally_place(w)))
        }
    }
}

// The same of the line at a place of the frame. A tally is lent to `cg_step` alone.
pub fn step_at(image: &mut [u8], frame: &[u8], at: usize) -> Result<LineTaken, Refusal>
    ensures { Takes image.old (line_at frame.now at) result image.new }
{
    step_by(image, part_to(frame, at, b'\n'))
}

// What a step line is answered.
pub fn step_answer<E>(s: Result<LineTaken, E>) -> Result<u32, E>
    ensures { result ≡ taken_answer s }
{
    s.map(|_| 0)
}

// The tally with the steps that a drain took.
fn drained(t: Tally, c: Counts) -> Tally
    ensures { (ts : List Step) → DrainCounted c ts → result ≡ counted t ts }
{
    t.raised(0, c.admit)
        .raised(1, c.realise)
        .raised(2, c.moved)
        .raised(3, c.finish)
}

// Takes the step that the line at a place of the frame asks for, gives 0, and counts what was taken.
pub fn cg_step(image: &mut [u8], frame: &[u8], at: usize, tally: &mut Tally) -> i64
    ensures { Steps image.old (line_at frame.now at) tally.old (record { answer = result; image = image.new; tally = tally.new }) }
{
    let s = step_at(image, frame, at);
    let answer = returned_number(step_answer(s));
    match s {
        Ok(LineTaken::One(place)) => raise(tally, place),
        Ok(LineTaken::Drain(counts)) => *tally = drained(*tally, counts),
        Err(_) => {}
    }
    answer
}
