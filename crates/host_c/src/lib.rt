// What a host in C links of the crate host: its functions by number, exported under their names with the same contracts.
#![tactic(auto)]

ghost use Rattle.host.specs.Entries.{opened, Calls, Steps, Claims, Lists};
ghost use Rattle.std.specs.Prelude.{◌≡◌};
ghost use Rattle.lines.specs.Forms.{line_at};

use panel::tally::Tally;

// Writes the image of the fresh session, whatever the bytes were.
#[unsafe(no_mangle)]
pub extern "C" fn cg_open(image: &mut [u8]) -> i64
    ensures { record { answer = result; image = image.new } ≡ opened image.old }
{
    host::lent::cg_open(image)
}

// Accepts the call line at a place of the frame, and gives its label.
#[unsafe(no_mangle)]
pub extern "C" fn cg_call(image: &mut [u8], frame: &[u8], at: usize) -> i64
    ensures { Calls image.old (line_at frame.now at) (record { answer = result; image = image.new }) }
{
    host::call::cg_call(image, frame, at)
}

// Takes the step that the line at a place of the frame asks for, gives 0, and counts what was taken.
#[unsafe(no_mangle)]
pub extern "C" fn cg_step(image: &mut [u8], frame: &[u8], at: usize, tally: &mut Tally) -> i64
    ensures { Steps image.old (line_at frame.now at) tally.old (record { answer = result; image = image.new; tally = tally.new }) }
{
    host::step::cg_step(image, frame, at, tally)
}

// Writes the result that the line at a place of the frame claims, removes it, and gives the written length.
#[unsafe(no_mangle)]
pub extern "C" fn cg_claim(image: &mut [u8], frame: &[u8], at: usize, out: &mut [u8]) -> i64
    ensures { Claims image.old (line_at frame.now at) out.old (record { answer = result; image = image.new; output = out.new }) }
{
    host::claim::cg_claim(image, frame, at, out)
}

// Writes the listing, and gives the written length.
#[unsafe(no_mangle)]
pub extern "C" fn cg_list(image: &[u8], out: &mut [u8]) -> i64
    ensures { Lists image.now out.old (record { answer = result; output = out.new }) }
{
    host::list::cg_list(image, out)
}
