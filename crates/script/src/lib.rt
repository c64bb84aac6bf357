// A script is served: its lines are read from standard input, and what is printed of them is written to standard output.
// What is printed of a line is proved in the crate `program`.
#![tactic(auto)]

mod input;
mod serve;

ghost use Rattle.std.specs.Prelude.{◌≤◌, length};
ghost use Rattle.script.specs.Inner.Running.{LinesOn};

use input::serve_input;
use serve::serve_last;

// Serves all lines of standard input. Nothing is written where not `printing`.
#[tactic(auto, using(crate::proofs::Running::then))]
pub fn serve_script(
    rt: &(impl Input + Print),
    image: &mut [u8],
    buffer: &mut [u8],
    out: &mut [u8],
    printing: bool,
)
    requires { (length buffer.old ≤ 65536) × (128 ≤ length out.old) }
    ensures { LinesOn image.old 1 image.new }
{
    let s = serve_input(rt, image, buffer, out, printing);
    let kept = s.kept;
    serve_last(rt, image, &buffer[..kept], s.line, out, printing);
}
