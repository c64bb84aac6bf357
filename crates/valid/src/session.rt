// Refusal 2, and opening.
ghost use Rattle.valid.specs.Inner.Exact.{Exact, Opened};

use crate::pool::labels_live;
use crate::rows::{nodes_ok, ops_ok, results_ok};
use crate::spaces::{is_canonical, is_sound};
use image::shift::clear;
use records::head::{Head, head_bytes};
use text::put::put_bytes;

// Whether the bytes are the image of a valid session: where they are not, that is refusal 2 (a wrong length is refusal 1).
pub fn image_valid(image: &[u8]) -> bool
    ensures { Exact image.now result }
{
    is_sound(image)
        && is_canonical(image)
        && nodes_ok(image)
        && ops_ok(image)
        && results_ok(image)
        && labels_live(image)
}

// Writes the fresh image, whatever the bytes were; false where the length is wrong, and then nothing is written.
pub fn open(image: &mut [u8]) -> bool
    ensures { Opened image.old image.new result }
{
    if image.len() != 4112 {
        return false;
    }
    clear(image, 16, 4112);
    let head = head_bytes(Head {
        nodes: 0,
        ops: 0,
        results: 0,
        last: 0,
    });
    put_bytes(image, 0, &head);
    true
}
