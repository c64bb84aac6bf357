// Columns that hold a field, set right or left, with blanks beside it: read.
ghost use Rattle.std.specs.Prelude.{◌≡◌, ◌&&◌, ◌+◌, ◌≤◌, ◌↔◌, IsTrue, EachIndex, slice_index, leb, length};
ghost use Rattle.pagelines.specs.Inner.Columns.{past_blanks, NumberRight, LinksLeft};

use graph::keys::Keys;
use keylists::keylist::KeyList;
use keylists::sofar::read_keys;
use text::cut::part_to;
use text::number::read_number;

fn is_blank(s: &[u8]) -> bool
    ensures { IsTrue result ↔ EachIndex s.now (λ k. slice_index s.now k ≡ 32) }
{
    s.iter().all(|&b| b == b' ')
}

// The part of `s` from its first byte that is no blank on.
fn past_blanks(s: &[u8]) -> &[u8]
    ensures { result.now ≡ past_blanks s.now }
{
    match s.iter().position(|&b| b != b' ') {
        Some(first) => &s[first..],
        None => &[],
    }
}

// The number that the columns from `at` on hold, set right, if it is one from `least` to `most`.
pub fn number_right(s: &[u8], at: usize, columns: usize, least: u32, most: u32) -> Option<u32>
    requires { at + columns ≤ length s.now }
    ensures { NumberRight s.now at columns least most result }
{
    let v = read_number(past_blanks(&s[at..at + columns]))?;
    if v < least || most < v {
        return None;
    }
    Some(v)
}

// Whether numbers are a link list: at most eight keys, in any order.
fn are_links(k: KeyList) -> bool
    ensures { result ≡ k.keys && leb k.count 8 }
{
    k.keys && k.count <= 8
}

// The links that the 23 columns from `at` on hold, set left.
pub fn links_left(s: &[u8], at: usize) -> Option<Keys>
    requires { at + 23 ≤ length s.now }
    ensures { LinksLeft s.now at result }
{
    let field = &s[at..at + 23];
    let text = part_to(field, 0, b' ');
    if !is_blank(&field[text.len()..]) {
        return None;
    }
    let read = read_keys(text)?;
    if !are_links(read) {
        return None;
    }
    let key = read.key;
    Some(Keys {
        count: read.count,
        key,
    })
}
