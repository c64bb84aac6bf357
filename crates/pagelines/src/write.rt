// The lines of a page, written: columns that hold a field, set right or left, with blanks beside it.
ghost use Rattle.std.specs.Prelude.{◌+◌, ◌≤◌, length, replicate};
ghost use Rattle.graph.specs.Packed.{listed};
ghost use Rattle.text.specs.Text.{decimal, commas};
ghost use Rattle.text.specs.Inner.Put.{TextPut};
ghost use Rattle.print.specs.Inner.Values.{node_by_value};
ghost use Rattle.pagelines.specs.Page.{set_right, set_left, page_head, page_line, PageNode};

use graph::keys::Keys;
use print::keylist::put_keys;
use text::number::{decimal_len, put_decimal};
use text::put::put_bytes;

fn put_blanks(out: &mut [u8], at: usize, n: usize) -> usize
    requires { at + n ≤ length out.old }
    ensures { TextPut out.old at (replicate n 32) out.new result }
{
    out[at..at + n].fill(b' ');
    at + n
}

// Writes a number, set right, and returns the place after its columns.
fn put_right(out: &mut [u8], at: usize, columns: usize, v: u32) -> usize
    requires { (length (decimal v) ≤ columns) × (at + columns ≤ length out.old) }
    ensures { TextPut out.old at (set_right columns (decimal v)) out.new result }
{
    let p = put_blanks(out, at, columns - decimal_len(v));
    put_decimal(out, p, v)
}

// Writes keys parted by commas, set left, and returns the place after their columns.
fn put_left(out: &mut [u8], at: usize, columns: usize, keys: Keys) -> usize
    requires { (length (commas (listed keys)) ≤ columns) × (at + columns ≤ length out.old) }
    ensures { TextPut out.old at (set_left columns (commas (listed keys))) out.new result }
{
    let p = put_keys(out, at, keys);
    put_blanks(out, p, columns - (p - at))
}

// Writes the head, with the count of nodes, and returns the place after it.
pub fn put_page_head(out: &mut [u8], at: usize, n: u32) -> usize
    requires { (n ≤ 64) × (at + 38 ≤ length out.old) }
    ensures { TextPut out.old at (page_head n) out.new result }
{
    let p = put_bytes(out, at, b"nodes");
    let q = put_right(out, p, 32, n);
    put_bytes(out, q, b"\n")
}

// Writes a node's line, and returns the place after it.
pub fn put_page_line(out: &mut [u8], at: usize, key: u32, value: u32, links: Keys) -> usize
    requires { (PageNode (node_by_value key value links)) × (at + 38 ≤ length out.old) }
    ensures { TextPut out.old at (page_line (node_by_value key value links)) out.new result }
{
    let p = put_right(out, at, 2, key);
    let q = put_bytes(out, p, b" ");
    let r = put_right(out, q, 10, value);
    let s = put_bytes(out, r, b" ");
    let t = put_left(out, s, 23, links);
    put_bytes(out, t, b"\n")
}
