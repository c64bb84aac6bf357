// The listing, written line by line.
ghost use Rattle.std.specs.Prelude.{◌+◌, ◌≤◌, length};
ghost use Rattle.text.specs.Inner.Put.{TextPut};
ghost use Rattle.valid.specs.Inner.Decoded.{session_of};
ghost use Rattle.state.specs.Inner.State.{flat_in, Proper};
ghost use Rattle.state.specs.Inner.ValidImage.{ValidImage};
ghost use Rattle.listing.specs.Inner.Rows.{head_line, row_text, rows_of, joined};
ghost use Rattle.listing.specs.Listed.{listing_of};

use crate::rows::{Row, row_at, rows_total};
use print::lines::{put_head, put_node, put_result};
use state::{nodes, results};
use waiting::labels_waiting;

fn put_row(out: &mut [u8], at: usize, row: Row) -> usize
    requires { at + length (row_text row) ≤ length out.old }
    ensures { TextPut out.old at (row_text row) out.new result }
{
    match row {
        Row::Node(n) => put_node(out, at, u32::from(n.key), n.value, n.links),
        Row::Result(r) => put_result(out, at, u32::from(r.label), r.value, r.left),
    }
}

fn put_rows(out: &mut [u8], at: usize, image: &[u8]) -> usize
    requires { (Proper image.now) × (at + length (joined (rows_of (flat_in image.now))) ≤ length out.old) }
    ensures { TextPut out.old at (joined (rows_of (flat_in image.now))) out.new result }
{
    let mut p = at;
    for i in 0..rows_total(image) {
        p = put_row(out, p, row_at(image, i));
    }
    p
}

fn put_counts(out: &mut [u8], image: &[u8]) -> usize
    requires { (Proper image.now) × (length (head_line (flat_in image.now)) ≤ length out.old) }
    ensures { TextPut out.old 0 (head_line (flat_in image.now)) out.new result }
{
    let n = nodes::total(image);
    let m = results::total(image);
    let pending = labels_waiting(image);
    put_head(out, 0, n as u32, m as u32, pending as u32)
}

// Writes the listing from the buffer's start on, and returns its length.
pub fn put_listing(out: &mut [u8], image: &[u8]) -> usize
    requires { (ValidImage image.now) × (length (listing_of (session_of image.now)) ≤ length out.old) }
    ensures { TextPut out.old 0 (listing_of (session_of image.now)) out.new result }
{
    let p = put_counts(out, image);
    put_rows(out, p, image)
}
