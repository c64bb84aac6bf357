// Tests of the parts of a record.
ghost use Rattle.std.specs.Prelude.{◌≡◌, cond, ◌+◌, ◌*◌, ◌%◌, ◌^◌, ◌≤◌, length};
ghost use Rattle.records.specs.Inner.Numbers.{keys_at};
ghost use Rattle.records.specs.Inner.Decoded.{labels_at};
ghost use Rattle.valid.specs.Inner.Tests.{keys_ok, labels_ok, takes_key, operand_ok, multiplier_ok, most_of, targets_ok, all_ok, mark_ok};

use records::bytes::u64_at;

// The greatest number of n bytes.
fn most_in(n: u8) -> u64
    requires { n ≤ 8 }
    ensures { result + 1 ≡ 256 ^ n }
{
    match n {
        0 => 0,
        1 => 0xFF,
        2 => 0xFFFF,
        3 => 0xFFFFFF,
        4 => 0xFFFFFFFF,
        5 => 0xFFFFFFFFFF,
        6 => 0xFFFFFFFFFFFF,
        7 => 0xFFFFFFFFFFFFFF,
        _ => 0xFFFFFFFFFFFFFFFF,
    }
}

// The highest bit of each of eight bytes.
const TOPS: u64 = 0x8080808080808080;

// What each key has to be above, as one number: the key before it where they are to rise, else 0.
fn floors(rise: bool, keys: u64) -> u64
    ensures { result ≡ cond rise (keys % 2 ^ 56 * 256) 0 }
{
    if rise {
        keys % 0x100000000000000 * 256
    } else {
        0
    }
}

// At most eight keys, strictly rising where `rise` says so, and zeros after them: their count is at `at`, and their eight places are one
// number. A byte of at most 127 is above 64 where adding 63 sets its highest bit; and x is above y where adding 127 - y sets x's.
#[tactic(auto, unfolding(crate::specs::Inner::Tests::keys_ok))]
pub fn keys_ok(rise: bool, s: &[u8], at: usize) -> bool
    requires { at + 9 ≤ length s.now }
    ensures { result ≡ keys_ok rise (keys_at s.now at) }
{
    let n = s[at];
    if 8 < n {
        return false;
    }
    let keys = u64_at(s, at + 1);
    let most = most_in(n);
    keys <= most
        && keys & TOPS == 0
        && (keys + 0x3F3F3F3F3F3F3F3F) & TOPS == 0
        && (keys + 0x7F7F7F7F7F7F7F7F - floors(rise, keys)) & TOPS == most & TOPS
}

// From one to `most` labels, and zeros after them: their count is at `at`, and their four places are one number.
#[tactic(auto, unfolding(crate::specs::Inner::Tests::labels_ok), using(crate::proofs::Digits::labels_few))]
pub fn labels_ok(most: u8, s: &[u8], at: usize) -> bool
    requires { (at + 9 ≤ length s.now) × (most ≤ 4) }
    ensures { result ≡ labels_ok most (labels_at s.now at) }
{
    let n = s[at];
    1 <= n && n <= most && u64_at(s, at + 1) <= most_in(2 * n)
}

fn takes_key(kind: u8) -> bool
    ensures { result ≡ takes_key kind }
{
    matches!(kind, 2 | 3 | 7)
}

pub fn operand_ok(kind: u8, key: u8) -> bool
    ensures { result ≡ operand_ok kind key }
{
    if takes_key(kind) {
        1 <= key && key <= 64
    } else {
        key == 0
    }
}

// Only a map has a multiplier, its `a`.
pub fn multiplier_ok(kind: u8, a: u32) -> bool
    ensures { result ≡ multiplier_ok kind a }
{
    kind == 1 || a == 0
}

pub fn most_of(kind: u8) -> u8
    ensures { result ≡ most_of kind }
{
    if kind == 1 { 4 } else { 1 }
}

// An add has no targets.
pub fn targets_ok(kind: u8, count: u8) -> bool
    ensures { result ≡ targets_ok kind count }
{
    kind != 0 || count == 0
}

// An all-call lists no targets, and an add is none.
pub fn all_ok(kind: u8, count: u8, all: u8) -> bool
    ensures { result ≡ all_ok kind count all }
{
    all == 0 || all == 1 && kind != 0 && count == 0
}

// Only an all-call at a station is marked.
pub fn mark_ok(station: u8, all: u8, mark: u8) -> bool
    ensures { result ≡ mark_ok station all mark }
{
    mark == 0 || mark == 1 && all == 1 && station != 65
}
