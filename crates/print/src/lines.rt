// The lines that are written, each with its newline, and their lengths. A caller that is short of room asks for the
// length first and writes nothing.
ghost use Rattle.std.specs.Prelude.{◌+◌, ◌≤◌, length};
ghost use Rattle.graph.specs.Packed.{listed};
ghost use Rattle.text.specs.Inner.Put.{TextPut};
ghost use Rattle.print.specs.Printed.{numbered, line_of, result_text, node_text, head_text, refusal_text};
ghost use Rattle.print.specs.Inner.Values.{result_by_value, node_by_value};
ghost use Rattle.print.specs.Inner.Lengths.{LineLength};

use crate::keylist::{keys_len, put_keys};
use graph::keys::Keys;
use text::number::{decimal_len, put_wide};
use text::put::put_bytes;

// Writes a name and a number of 64 bits.
fn put_wide_field(out: &mut [u8], at: usize, name: &[u8], v: u64) -> usize
    requires { at + length (numbered name.now v) ≤ length out.old }
    ensures { TextPut out.old at (numbered name.now v) out.new result }
{
    let p = put_bytes(out, at, name);
    put_wide(out, p, v)
}

// Writes a name and a number.
pub fn put_field(out: &mut [u8], at: usize, name: &[u8], v: u32) -> usize
    requires { at + length (numbered name.now v) ≤ length out.old }
    ensures { TextPut out.old at (numbered name.now v) out.new result }
{
    put_wide_field(out, at, name, u64::from(v))
}

// Writes two numbers and a list of keys, each after its name, and a newline.
pub fn put_line(
    out: &mut [u8],
    at: usize,
    a: &[u8],
    x: u32,
    b: &[u8],
    y: u32,
    c: &[u8],
    keys: Keys,
) -> usize
    requires { at + length (line_of a.now x b.now y c.now (listed keys)) ≤ length out.old }
    ensures { TextPut out.old at (line_of a.now x b.now y c.now (listed keys)) out.new result }
{
    let p = put_field(out, at, a, x);
    let q = put_field(out, p, b, y);
    let r = put_bytes(out, q, c);
    let s = put_keys(out, r, keys);
    put_bytes(out, s, b"\n")
}

// Writes a result's line from `at` on, and returns the place after it.
#[tactic(auto, unfolding(text::specs::Text::ascii))]
pub fn put_result(out: &mut [u8], at: usize, label: u32, value: u32, left: Keys) -> usize
    requires { at + length (result_text (result_by_value label value left)) ≤ length out.old }
    ensures { TextPut out.old at (result_text (result_by_value label value left)) out.new result }
{
    put_line(
        out, at, b"label=", label, b" value=", value, b" left=", left,
    )
}

// Writes a node's line from `at` on, and returns the place after it.
#[tactic(auto, unfolding(text::specs::Text::ascii))]
pub fn put_node(out: &mut [u8], at: usize, key: u32, value: u32, links: Keys) -> usize
    requires { at + length (node_text (node_by_value key value links)) ≤ length out.old }
    ensures { TextPut out.old at (node_text (node_by_value key value links)) out.new result }
{
    put_line(out, at, b"key=", key, b" value=", value, b" links=", links)
}

// Writes the listing's head from `at` on, and returns the place after it.
#[tactic(auto, unfolding(text::specs::Text::ascii))]
pub fn put_head(out: &mut [u8], at: usize, nodes: u32, results: u32, pending: u32) -> usize
    requires { at + length (head_text nodes results pending) ≤ length out.old }
    ensures { TextPut out.old at (head_text nodes results pending) out.new result }
{
    let p = put_field(out, at, b"nodes=", nodes);
    let q = put_field(out, p, b" results=", results);
    let r = put_field(out, q, b" pending=", pending);
    put_bytes(out, r, b"\n")
}

// Writes what cgrun prints of a refused line from `at` on, and returns the place after it. An input may have more lines
// than a number of 32 bits counts.
#[tactic(auto, unfolding(text::specs::Text::ascii))]
pub fn put_refusal(out: &mut [u8], at: usize, line: u64, refusal: u32) -> usize
    requires { at + length (refusal_text line refusal) ≤ length out.old }
    ensures { TextPut out.old at (refusal_text line refusal) out.new result }
{
    let p = put_wide_field(out, at, b"line=", line);
    let q = put_field(out, p, b" refused=", refusal);
    put_bytes(out, q, b"\n")
}

// The lengths: the names and the newline, the digits, the keys.
// Twins: one function for a result's and a node's line would need a contract of its own, and so be no shorter than these sums.

#[tactic(auto, unfolding(text::specs::Text::ascii))]
pub fn result_len(label: u32, value: u32, left: Keys) -> usize
    ensures { LineLength (result_text (result_by_value label value left)) result }
{
    20 + decimal_len(label) + decimal_len(value) + keys_len(left)
}

#[tactic(auto, unfolding(text::specs::Text::ascii))]
pub fn node_len(key: u32, value: u32, links: Keys) -> usize
    ensures { LineLength (node_text (node_by_value key value links)) result }
{
    19 + decimal_len(key) + decimal_len(value) + keys_len(links)
}

#[tactic(auto, unfolding(text::specs::Text::ascii))]
pub fn head_len(nodes: u32, results: u32, pending: u32) -> usize
    ensures { LineLength (head_text nodes results pending) result }
{
    25 + decimal_len(nodes) + decimal_len(results) + decimal_len(pending)
}
