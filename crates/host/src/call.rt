// A call line, accepted with its label or refused.
ghost use Rattle.std.specs.Prelude.{List, ℕ};
ghost use Rattle.lines.specs.Forms.{line_at};
ghost use Rattle.lines.specs.Inner.Answers.{CallRead};
ghost use Rattle.panel.specs.Returned.{returned_number};
ghost use Rattle.valid.specs.Inner.Decoded.{session_of};
ghost use Rattle.host.specs.Entries.{ImageOf, Calls};
ghost use Rattle.host.specs.Inner.Reads.{ReadOfSome};

use crate::lent::image_refusal;
use graph::refusal::Refusal;
use lines::call::{Call, parse_call};
use panel::returned::returned_number;
use session::accepts::accept;
use state::results::last;
use text::cut::part_to;

// Accepts a call as it was read, on the image of a session.
fn accept_on(image: &mut [u8], read: Result<Call, Refusal>) -> Result<u32, Refusal>
    requires { (ImageOf image.old (session_of image.old)) × ReadOfSome read }
    ensures { (line : List ℕ) → CallRead line read → Calls image.old line (record { answer = returned_number result; image = image.new }) }
{
    let call = read?;
    accept(image, call)?;
    Ok(u32::from(last(image)))
}

// Accepts a call line as it was read, and gives the call's label.
pub fn accept_read(image: &mut [u8], read: Result<Call, Refusal>) -> Result<u32, Refusal>
    requires { ReadOfSome read }
    ensures { (line : List ℕ) → CallRead line read → Calls image.old line (record { answer = returned_number result; image = image.new }) }
{
    image_refusal(image)?;
    accept_on(image, read)
}

// Accepts the call line at a place of the frame, and gives its label. The line is read only where the image is a session's.
pub fn call_at(image: &mut [u8], frame: &[u8], at: usize) -> Result<u32, Refusal>
    ensures { Calls image.old (line_at frame.now at) (record { answer = returned_number result; image = image.new }) }
{
    image_refusal(image)?;
    accept_on(image, parse_call(part_to(frame, at, b'\n')))
}

// The same, by number.
pub fn cg_call(image: &mut [u8], frame: &[u8], at: usize) -> i64
    ensures { Calls image.old (line_at frame.now at) (record { answer = result; image = image.new }) }
{
    returned_number(call_at(image, frame, at))
}
