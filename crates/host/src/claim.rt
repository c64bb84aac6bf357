// A claim line: the result's line is written, and the session holds the result no more.
ghost use Rattle.std.specs.Prelude.{◌≡◌};
ghost use Rattle.graph.specs.Refusals.{done};
ghost use Rattle.graph.specs.Acceptance.{claim};
ghost use Rattle.lines.specs.Forms.{line_at};
ghost use Rattle.panel.specs.Returned.{returned_number};
ghost use Rattle.valid.specs.Inner.Decoded.{session_of};
ghost use Rattle.state.specs.Inner.State.{flat_in};
ghost use Rattle.state.specs.Inner.Results.{taken_at};
ghost use Rattle.state.specs.Inner.ValidImage.{ValidImage};
ghost use Rattle.session.specs.Inner.Claims.{Claimable};
ghost use Rattle.host.specs.Entries.{ImageOf, claim_served, Claims};

use crate::lent::image_refusal;
use graph::refusal::Refusal;
use lines::claim::parse_claim;
use panel::returned::returned_number;
use print::lines::{put_result, result_len};
use session::claims::{call_result, find, remove};
use text::cut::part_to;

// The line of the result at this place is written, and the session holds the result no more.
fn claim_result(image: &mut [u8], at: usize, out: &mut [u8]) -> Result<u32, Refusal>
    requires { (ValidImage image.old) × (Claimable image.old at) }
    ensures { claim_served image.old out.old (session_of image.old) (done (taken_at at (flat_in image.old).results)) ≡ record { answer = returned_number result; image = image.new; output = out.new } }
{
    let o = call_result(image, at);
    let label = u32::from(o.label);
    let n = result_len(label, o.value, o.left);
    if n > out.len() {
        return Err(Refusal::ShortOutput);
    }
    put_result(out, 0, label, o.value, o.left);
    remove(image, at);
    Ok(n as u32)
}

// The claim of a label on the image of a session.
fn claim_label(image: &mut [u8], claimed: u32, out: &mut [u8]) -> Result<u32, Refusal>
    requires { ImageOf image.old (session_of image.old) }
    ensures { record { answer = returned_number result; image = image.new; output = out.new } ≡ claim_served image.old out.old (session_of image.old) (claim claimed (session_of image.old)) }
{
    let at = find(image, claimed)?;
    claim_result(image, at, out)
}

fn claim_line(image: &mut [u8], line: &[u8], out: &mut [u8]) -> Result<u32, Refusal>
    ensures { Claims image.old line.now out.old (record { answer = returned_number result; image = image.new; output = out.new }) }
{
    image_refusal(image)?;
    let label = parse_claim(line)?;
    claim_label(image, label, out)
}

// Writes the result that the line at a place of the frame claims, removes it, and gives the written length.
pub fn claim_at(image: &mut [u8], frame: &[u8], at: usize, out: &mut [u8]) -> Result<u32, Refusal>
    ensures { Claims image.old (line_at frame.now at) out.old (record { answer = returned_number result; image = image.new; output = out.new }) }
{
    claim_line(image, part_to(frame, at, b'\n'), out)
}

// The same, by number.
pub fn cg_claim(image: &mut [u8], frame: &[u8], at: usize, out: &mut [u8]) -> i64
    ensures { Claims image.old (line_at frame.now at) out.old (record { answer = result; image = image.new; output = out.new }) }
{
    returned_number(claim_at(image, frame, at, out))
}
