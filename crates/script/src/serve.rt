// The lines of a frame, which is what is there of the input at a time.
ghost use Rattle.std.specs.Prelude.{◌+◌, ◌≤◌, ◌<◌, ◌^◌, length};
ghost use Rattle.script.specs.Inner.Rooms.{RoomToServe, RestWithin};
ghost use Rattle.script.specs.Inner.Running.{LinesRun, LinesOn};

use program::frame::serve_lines;
use program::serve::serve_line;
use text::cut::part_to;

// A line is 10 from this length on, whatever follows.
const LONG: usize = 256;

// What is left of a frame: its last line, from `at` on, if that has no newline yet; the number of the next line; and
// whether the frame ended within a line that was refused already for its length.
#[derive(Clone, Copy)]
pub struct Rest {
    pub at: usize,
    pub line: u64,
    pub long: bool,
}

// A write that fails is passed over.
fn show(rt: &impl Print, text: &[u8], printing: bool) {
    if printing {
        let _ = rt.write_all(text);
    }
}

// Serves all whole lines, and writes out what is printed.
fn serve_whole(
    rt: &impl Print,
    image: &mut [u8],
    frame: &[u8],
    at: usize,
    line: u64,
    out: &mut [u8],
    printing: bool,
) -> Rest
    requires { (at ≤ length frame.now) × RoomToServe frame.now line out.old }
    ensures { RestWithin frame.now line result × LinesRun image.old line image.new result.line }
{
    let mut rest = Rest {
        at,
        line,
        long: false,
    };
    loop {
        let p = serve_lines(image, frame, rest.at, rest.line, out);
        show(rt, &out[..p.used], printing);
        if p.at == rest.at {
            return rest;
        }
        rest.at = p.at;
        rest.line = p.line;
    }
}

// Serves what the frame has of a line that is too long already, or keeps it.
fn serve_long(
    rt: &impl Print,
    image: &mut [u8],
    frame: &[u8],
    rest: Rest,
    out: &mut [u8],
    printing: bool,
) -> Rest
    requires { (rest.at ≤ length frame.now) × (rest.line + 1 < 2 ^ 64) × (128 ≤ length out.old) }
    ensures { (result.at ≤ length frame.now) × LinesRun image.old rest.line image.new result.line }
{
    let at = rest.at;
    if frame.len() - at < LONG {
        return rest;
    }
    let n = serve_line(image, frame, at, rest.line, out);
    show(rt, &out[..n], printing);
    Rest {
        at: frame.len(),
        line: rest.line + 1,
        long: true,
    }
}

#[tactic(auto, using(crate::proofs::Running::then))]
fn serve_from(
    rt: &impl Print,
    image: &mut [u8],
    frame: &[u8],
    at: usize,
    line: u64,
    out: &mut [u8],
    printing: bool,
) -> Rest
    requires { (at ≤ length frame.now) × RoomToServe frame.now line out.old }
    ensures { (result.at ≤ length frame.now) × LinesRun image.old line image.new result.line }
{
    let rest = serve_whole(rt, image, frame, at, line, out, printing);
    serve_long(rt, image, frame, rest, out, printing)
}

// Serves the lines of a frame. The rest of a line that was refused for its length is passed over.
#[tactic(auto, using(crate::proofs::Running::no_lines))]
pub fn serve_frame(
    rt: &impl Print,
    image: &mut [u8],
    frame: &[u8],
    line: u64,
    long: bool,
    out: &mut [u8],
    printing: bool,
) -> Rest
    requires { RoomToServe frame.now line out.old }
    ensures { (result.at ≤ length frame.now) × LinesRun image.old line image.new result.line }
{
    if !long {
        return serve_from(rt, image, frame, 0, line, out, printing);
    }
    let n = part_to(frame, 0, b'\n').len();
    if n >= frame.len() {
        return Rest {
            at: frame.len(),
            line,
            long,
        };
    }
    serve_from(rt, image, frame, n + 1, line, out, printing)
}

// Serves a last line that has no newline.
pub fn serve_last(
    rt: &impl Print,
    image: &mut [u8],
    frame: &[u8],
    line: u64,
    out: &mut [u8],
    printing: bool,
)
    requires { 128 ≤ length out.old }
    ensures { LinesOn image.old line image.new }
{
    if 0 < frame.len() {
        let n = serve_line(image, frame, 0, line, out);
        show(rt, &out[..n], printing);
    }
}
