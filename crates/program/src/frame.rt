// The lines of a frame, one after the other, as long as the output has room.
ghost use Rattle.std.specs.Prelude.{true, false, ◌≡◌, ◌+◌, ◌≤◌, ◌<◌, ◌^◌, ltb, length};
ghost use Rattle.lines.specs.Forms.{line_at};
ghost use Rattle.program.specs.Inner.Frames.{Ready, Next, LinesServed};

use crate::serve::serve_line;
use text::cut::part_to;

// Where the next line stands, its number, and how many bytes of the output are written.
#[derive(Clone, Copy)]
pub struct FramePlace {
    pub at: usize,
    pub line: u64,
    pub used: usize,
}

// Whether a whole line, with its newline, stands at a place.
pub fn is_whole(frame: &[u8], at: usize) -> bool
    requires { at ≤ length frame.now }
    ensures { result ≡ ltb (at + length (line_at frame.now at)) (length frame.now) }
{
    let n = part_to(frame, at, b'\n').len();
    n < frame.len() - at
}

// Whether a whole line stands next, and the output has room for what is printed of it.
fn has_next(frame: &[u8], p: FramePlace, out: &[u8]) -> bool
    requires { (p.at ≤ length frame.now) × (p.used ≤ length out.now) }
    ensures { Ready frame.now p out.now result }
{
    if out.len() - p.used < 128 {
        return false;
    }
    is_whole(frame, p.at)
}

// Serves the line that stands next. Nothing that is printed of a line is longer than 128 bytes.
pub fn serve_next(image: &mut [u8], frame: &[u8], p: FramePlace, out: &mut [u8]) -> FramePlace
    requires { Ready frame.now p out.old true × (p.line + 1 < 2 ^ 64) }
    ensures { Next image.old frame.now p out.old image.new out.new result }
{
    let at = p.at;
    let used = p.used;
    let n = part_to(frame, at, b'\n').len();
    let written = serve_line(image, frame, at, p.line, &mut out[used..used + 128]);
    FramePlace {
        at: at + n + 1,
        line: p.line + 1,
        used: used + written,
    }
}

// Serves the whole lines from a place on, until none is left or the output may be too short for what is printed of one.
pub fn serve_lines(
    image: &mut [u8],
    frame: &[u8],
    at: usize,
    line: u64,
    out: &mut [u8],
) -> FramePlace
    requires { (at ≤ length frame.now) × (line + length frame.now < 2 ^ 64) }
    ensures { LinesServed image.old frame.now at line image.new out.new result × Ready frame.now result out.new false }
{
    let mut p = FramePlace { at, line, used: 0 };
    while has_next(frame, p, out) {
        p = serve_next(image, frame, p, out);
    }
    p
}
