// The whole lines of the line buffer, one after the other.
ghost use Rattle.std.specs.Prelude.{◌+◌, ◌*◌, ◌-◌, ◌≤◌, ◌<◌, ◌^◌, length};
ghost use Rattle.lines.specs.Forms.{line_at};
ghost use Rattle.pieces.specs.Inner.Frames.{LinesServed};

use program::frame::{FramePlace, is_whole, serve_next};

// Serves the whole lines from a place on. `program::frame::serve_lines` also stops where the output may be too short.
pub fn serve_lines(image: &mut [u8], frame: &[u8], from: FramePlace, out: &mut [u8]) -> FramePlace
    requires { (from.at ≤ length frame.now) × (from.used + 128 * (length frame.now - from.at) ≤ length out.old) × (from.line + length frame.now < 2 ^ 64) }
    ensures { LinesServed image.old frame.now from out.old image.new out.new result × (length frame.now ≤ result.at + length (line_at frame.now result.at)) }
{
    let mut p = from;
    while is_whole(frame, p.at) {
        p = serve_next(image, frame, p, out);
    }
    p
}
