// The image's length and counts, and the bytes that no record uses.
ghost use Rattle.image.specs.Inner.Regions.{Sound, Canonical};
ghost use Rattle.valid.specs.Inner.Exact.{Decides};

use image::read::{node_count, op_count, result_count};
use records::bytes::all_zero;
use records::head::VERSION;

pub fn is_sound(image: &[u8]) -> bool
    ensures { Decides (Sound image.now) result }
{
    image.len() == 4112 && image[1] <= 64 && image[2] <= 64 && image[3] <= 64
}

pub fn is_canonical(image: &[u8]) -> bool
    requires { Sound image.now }
    ensures { Decides (Canonical image.now) result }
{
    let n = 16 + 16 * node_count(image);
    let o = 1040 + 32 * op_count(image);
    let r = 3088 + 16 * result_count(image);
    image[0] == VERSION
        && all_zero(&image[6..16])
        && all_zero(&image[n..1040])
        && all_zero(&image[o..3088])
        && all_zero(&image[r..4112])
}
