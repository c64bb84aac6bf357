// The start and the end of the input.
ghost use Rattle.std.specs.Prelude.{◌≡◌, ◌≤◌, length};
ghost use Rattle.pieces.specs.Inner.Feeding.{Begins, SomeTaken, LastServed, Finishes};

use crate::between::{Kept, State};
use crate::serving::serve_long;
use host::lent::cg_open;
use program::serve::{serve_end, serve_line};

// A fresh session, and no byte of the input yet.
pub fn start(image: &mut [u8]) -> State
    requires { length image.old ≡ 4112 }
    ensures { Begins image.new result }
{
    cg_open(image);
    State {
        line: 1,
        kept: Kept::Bytes(0),
        printed: 0,
    }
}

// Serves a last line that has no newline, where there is one, and gives the length of what is printed of it.
pub fn serve_last(image: &mut [u8], buffer: &[u8], s: State, out: &mut [u8]) -> usize
    requires { (length buffer.now ≡ 64) × (128 ≤ length out.old) × SomeTaken image.old buffer.now s }
    ensures { LastServed image.old buffer.now s image.new out.new result }
{
    match s.kept {
        Kept::Bytes(0) => 0,
        Kept::Bytes(n) => serve_line(image, &buffer[..n], 0, s.line, out),
        Kept::Long(l) => serve_long(image, l, s.line, out),
    }
}

// The same, and the listing after it.
pub fn finish(image: &mut [u8], buffer: &[u8], s: State, out: &mut [u8]) -> usize
    requires { (length buffer.now ≡ 64) × (16640 ≤ length out.old) × SomeTaken image.old buffer.now s }
    ensures { Finishes image.old buffer.now s out.new result }
{
    let last = serve_last(image, buffer, s, &mut out[..128]);
    let n = serve_end(image, &mut out[last..]);
    last + n
}
