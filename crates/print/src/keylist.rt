// A list of keys, parted by commas.
ghost use Rattle.std.specs.Prelude.{◌+◌, ◌≤◌, length};
ghost use Rattle.graph.specs.Packed.{listed};
ghost use Rattle.text.specs.Text.{commas};
ghost use Rattle.text.specs.Inner.Put.{TextPut};
ghost use Rattle.print.specs.Inner.Values.{entry};
ghost use Rattle.print.specs.Inner.Lengths.{EntryLength, KeysLength};

use graph::keys::Keys;
use text::number::{decimal_len, put_decimal};

// Writes the key that stands at `place` of a list: a comma before each but the first.
fn put_entry(out: &mut [u8], at: usize, place: usize, key: u8) -> usize
    requires { at + length (entry place key) ≤ length out.old }
    ensures { TextPut out.old at (entry place key) out.new result }
{
    if place == 0 {
        return put_decimal(out, at, u32::from(key));
    }
    out[at] = b',';
    put_decimal(out, at + 1, u32::from(key))
}

// Writes the keys from `at` on, and returns the place after them.
pub fn put_keys(out: &mut [u8], at: usize, keys: Keys) -> usize
    requires { at + length (commas (listed keys)) ≤ length out.old }
    ensures { TextPut out.old at (commas (listed keys)) out.new result }
{
    let mut p = at;
    for (i, &key) in keys.as_slice().iter().enumerate() {
        p = put_entry(out, p, i, key);
    }
    p
}

fn entry_len(place: usize, key: u8) -> usize
    ensures { EntryLength place key result }
{
    usize::from(place != 0) + decimal_len(u32::from(key))
}

// How many bytes `put_keys` writes.
pub fn keys_len(keys: Keys) -> usize
    ensures { KeysLength keys result }
{
    let mut sum = 0;
    for (i, &key) in keys.as_slice().iter().enumerate() {
        sum += entry_len(i, key);
    }
    sum
}
