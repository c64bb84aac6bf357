// Standard input, read to its end and served as it comes.
ghost use Rattle.std.specs.Prelude.{◌≡◌, ◌≤◌, length, MatchOption};
ghost use Rattle.script.specs.Inner.Running.{LinesRun};
ghost use Rattle.script.specs.declared.input.State.{State};

use crate::serve::serve_frame;
use std::io::Read;
use streams::read_some;

// No input has so many lines: at one each nanosecond they take 146 years. So no line number wraps.
const LAST: u64 = 4611686018427387904;

// Between two reads: the bytes kept at the start of the buffer, a part of a line; the number of that line; and whether it
// was refused already for its length.
#[derive(Clone, Copy)]
pub struct State {
    pub kept: usize,
    pub line: u64,
    pub long: bool,
}

// Reads once, and serves what came. None at the end of the input.
fn turn(
    rt: &impl Print,
    input: &mut impl Read,
    image: &mut [u8],
    buffer: &mut [u8],
    s: State,
    out: &mut [u8],
    printing: bool,
) -> Option<State>
    requires { (s.kept ≤ length buffer.old) × (length buffer.old ≤ 65536) × (128 ≤ length out.old) }
    ensures { MatchOption result (image.new ≡ image.old) (λ (t : State). (t.kept ≤ length buffer.new) × LinesRun image.old s.line image.new t.line) }
{
    if s.line > LAST {
        return None;
    }
    let got = read_some(input, &mut buffer[s.kept..]);
    if got == 0 {
        return None;
    }
    let filled = s.kept + got;
    let rest = serve_frame(rt, image, &buffer[..filled], s.line, s.long, out, printing);
    buffer.copy_within(rest.at..filled, 0);
    Some(State {
        kept: filled - rest.at,
        line: rest.line,
        long: rest.long,
    })
}

// Reads and serves to the end of the input. A loop has to end, and no run uses up the turns.
pub fn serve_input(
    rt: &(impl Input + Print),
    image: &mut [u8],
    buffer: &mut [u8],
    out: &mut [u8],
    printing: bool,
) -> State
    requires { (length buffer.old ≤ 65536) × (128 ≤ length out.old) }
    ensures { (result.kept ≤ length buffer.new) × LinesRun image.old 1 image.new result.line }
{
    let mut input = rt.reader();
    let mut s = State {
        kept: 0,
        line: 1,
        long: false,
    };
    for _ in 0..u64::MAX {
        let Some(next) = turn(rt, &mut input, image, buffer, s, out, printing) else {
            break;
        };
        s = next;
    }
    s
}
