// The fields that follow a line's first word: numbers, and the targets at the end.
ghost use Rattle.std.specs.Prelude.{◌≡◌, true, ◌≤◌, ltb, length, drop};
ghost use Rattle.text.specs.Text.{up_to};
ghost use Rattle.lines.specs.Inner.LineParts.{FieldOf, TailOf};

use keylists::keylist::KeyList;
use keylists::sofar::read_keys;
use text::cut::{part_to, past};
use text::number::read_number;

// A line has at most 255 bytes.
pub fn too_long(line: &[u8]) -> bool
    ensures { result ≡ ltb 255 (length line.now) }
{
    255 < line.len()
}

// The bytes from `from`, which follow an equals sign: the part up to the next space or the end.
pub fn value_at(line: &[u8], from: usize) -> &[u8]
    ensures { result.now ≡ up_to 32 (drop from line.now) }
{
    part_to(line, from, b' ')
}

// The number of the field that begins at `at` with `literal`, which ends in an equals sign, and the place after the field.
pub fn number_field(line: &[u8], at: usize, literal: &[u8]) -> Option<(u32, usize)>
    requires { at ≤ length line.now }
    ensures { FieldOf line.now at literal.now result }
{
    let from = past(line, at, literal)?;
    let value = value_at(line, from);
    let v = read_number(value)?;
    Some((v, from + value.len()))
}

// What a line says after ` to=`: `all`, or what is known of a list of numbers.
#[derive(Clone, Copy)]
pub enum TargetsRead {
    All,
    Listed(KeyList),
}

// The targets from `at` to the line's end: ` to=`, and `all` or a list of numbers.
pub fn targets_field(line: &[u8], at: usize) -> Option<TargetsRead>
    requires { at ≤ length line.now }
    ensures { TailOf true (drop at line.now) result }
{
    let from = past(line, at, b" to=")?;
    let value = value_at(line, from);
    if from + value.len() < line.len() {
        return None;
    }
    if value == b"all".as_slice() {
        return Some(TargetsRead::All);
    }
    let list = read_keys(value)?;
    Some(TargetsRead::Listed(list))
}
