// The listing's length: a caller that is short of room asks for it first and writes nothing.
ghost use Rattle.print.specs.Inner.Lengths.{LineLength};
ghost use Rattle.valid.specs.Inner.Decoded.{session_of};
ghost use Rattle.state.specs.Inner.State.{flat_in, Proper};
ghost use Rattle.state.specs.Inner.ValidImage.{ValidImage};
ghost use Rattle.listing.specs.Inner.Rows.{head_line, row_text, rows_of, joined, RowsLength, ListingLength};

use crate::rows::{Row, row_at, rows_total};
use print::lines::{head_len, node_len, result_len};
use state::{nodes, results};
use waiting::labels_waiting;

fn row_len(row: Row) -> usize
    ensures { LineLength (row_text row) result }
{
    match row {
        Row::Node(n) => node_len(u32::from(n.key), n.value, n.links),
        Row::Result(r) => result_len(u32::from(r.label), r.value, r.left),
    }
}

fn rows_len(image: &[u8]) -> usize
    requires { Proper image.now }
    ensures { RowsLength (joined (rows_of (flat_in image.now))) result }
{
    let mut sum = 0;
    for i in 0..rows_total(image) {
        sum += row_len(row_at(image, i));
    }
    sum
}

fn counts_len(image: &[u8]) -> usize
    requires { Proper image.now }
    ensures { LineLength (head_line (flat_in image.now)) result }
{
    let n = nodes::total(image);
    let m = results::total(image);
    let pending = labels_waiting(image);
    head_len(n as u32, m as u32, pending as u32)
}

// How many bytes `put_listing` writes.
pub fn listing_len(image: &[u8]) -> usize
    requires { ValidImage image.now }
    ensures { ListingLength (session_of image.now) result }
{
    counts_len(image) + rows_len(image)
}
