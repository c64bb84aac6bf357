// A line of which something is kept in place of its bytes, served as `program::serve` serves a line at a place of a frame.
ghost use Rattle.std.specs.Prelude.{List, ℕ, ◌≤◌, length};
ghost use Rattle.longlines.specs.Inner.LongLines.{LongOf};
ghost use Rattle.program.specs.Inner.Frames.{Served};
ghost use Rattle.pieces.specs.Inner.Serving.{LongOfSome};

use host::call::accept_read;
use longlines::longline::{LongLine, read_long};
use program::serve::put_answer;

// Serves a line of which this is kept in place of its bytes (S-7). No such line is a step or a claim.
pub fn serve_long(image: &mut [u8], l: LongLine, line: u64, out: &mut [u8]) -> usize
    requires { (128 ≤ length out.old) × LongOfSome l }
    ensures { (text : List ℕ) → LongOf text l → Served image.old text line image.new out.new result }
{
    let answer = accept_read(image, read_long(l));
    put_answer(out, line, answer, 0)
}
