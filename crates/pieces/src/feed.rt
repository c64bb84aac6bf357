// A piece of the input, served as far as it has whole lines.
ghost use Rattle.std.specs.Prelude.{List, [], ◌++◌, ◌≡◌, ℕ, ◌+◌, ◌*◌, ◌-◌, ◌≤◌, ◌<◌, ◌^◌, length, take, drop};
ghost use Rattle.text.specs.Text.{up_to};
ghost use Rattle.longlines.specs.Inner.LongLines.{LongOf};
ghost use Rattle.pieces.specs.Inner.Serving.{LongOfSome};
ghost use Rattle.pieces.specs.Inner.Feeding.{bytes_kept, KeptOf, SomeTaken, BytesFed, Feeds};

use crate::between::{Kept, State};
use crate::frame::serve_lines;
use crate::serving::serve_long;
use longlines::longline::{LongLine, begin, go_on};
use program::frame::FramePlace;
use text::cut::part_to;

// Keeps the part of a line that stands from a place on: its bytes, or what stands for a line that fills the buffer.
fn keep_rest(buffer: &mut [u8], filled: usize, p: FramePlace) -> State
    requires { (length buffer.old ≡ 64) × (p.at ≤ filled) × (filled ≤ 64) }
    ensures { KeptOf result.kept buffer.new (drop p.at (take filled buffer.old)) × (result.line ≡ p.line) × (result.printed ≡ p.used) }
{
    let at = p.at;
    if filled - at == 64 {
        return State {
            line: p.line,
            kept: Kept::Long(begin(buffer)),
            printed: p.used,
        };
    }
    buffer.copy_within(at..filled, 0);
    State {
        line: p.line,
        kept: Kept::Bytes(filled - at),
        printed: p.used,
    }
}

// Serves the whole lines from a place on, and keeps the rest.
fn feed_lines(
    image: &mut [u8],
    buffer: &mut [u8],
    filled: usize,
    p: FramePlace,
    out: &mut [u8],
) -> State
    requires { (length buffer.old ≡ 64) × (p.at ≤ filled) × (filled ≤ 64) × (p.used + 128 * (filled - p.at) ≤ length out.old) × (p.line + 64 < 2 ^ 64) }
    ensures { BytesFed image.old p.line (drop p.at (take filled buffer.old)) (take p.used out.old) image.new buffer.new out.new result × (result.line + p.at ≤ p.line + filled) }
{
    let q = serve_lines(image, &buffer[..filled], p, out);
    keep_rest(buffer, filled, q)
}

// The same for a piece that goes on with a line that filled the buffer: the line's end, if it is there, and then whole lines.
fn feed_long(
    image: &mut [u8],
    buffer: &mut [u8],
    from: LongLine,
    line: u64,
    got: usize,
    out: &mut [u8],
) -> State
    requires { (length buffer.old ≡ 64) × (got ≤ 64) × (8192 ≤ length out.old) × (line + 65 < 2 ^ 64) × LongOfSome from }
    ensures { ((part : List ℕ) → up_to 10 part ≡ part → LongOf part from → BytesFed image.old line (part ++ take got buffer.old) [] image.new buffer.new out.new result) × (result.line ≤ line + got) }
{
    let n = part_to(&buffer[..got], 0, b'\n').len();
    let l = go_on(from, &buffer[..n]);
    if n == got {
        return State {
            line,
            kept: Kept::Long(l),
            printed: 0,
        };
    }
    let used = serve_long(image, l, line, &mut out[..128]);
    let p = FramePlace {
        at: n + 1,
        line: line + 1,
        used,
    };
    feed_lines(image, buffer, got, p, out)
}

// Serves what the line buffer has after a read: the bytes that were kept, and `got` bytes behind them. What is printed stands at
// the start of `out`.
pub fn feed(image: &mut [u8], buffer: &mut [u8], s: State, got: usize, out: &mut [u8]) -> State
    requires { (length buffer.old ≡ 64) × (bytes_kept s.kept + got ≤ 64) × (8192 ≤ length out.old) × (s.line + 65 < 2 ^ 64) × SomeTaken image.old buffer.old s }
    ensures { Feeds image.old buffer.old s got image.new buffer.new out.new result }
{
    match s.kept {
        Kept::Bytes(n) => {
            let p = FramePlace {
                at: 0,
                line: s.line,
                used: 0,
            };
            feed_lines(image, buffer, n + got, p, out)
        }
        Kept::Long(l) => feed_long(image, buffer, l, s.line, got, out),
    }
}
