// Call lines.
ghost use Rattle.std.specs.Prelude.{◌≡◌, [], ◌≤◌, length, drop};
ghost use Rattle.graph.specs.Refused.{answered};
ghost use Rattle.graph.specs.Targets.{To};
ghost use Rattle.lines.specs.Inner.Answers.{call_answered, CallRead};
ghost use Rattle.lines.specs.Inner.LineParts.{FieldIf, TailOf, ToRead, CallWordOf, first_literals, second_literals, call_listed, targets_named, key_fits, lacks_inverse_of, call_made, CallAfter};

use crate::fields::{TargetsRead, number_field, targets_field, too_long, value_at};
use graph::affine::is_odd;
use graph::refusal::Refusal;
use graph::remaining::Remaining;
use keylists::keylist::{KeyList, is_key};
use text::cut::past;

#[derive(Clone, Copy, Debug, PartialEq, Eq)]
pub enum CallKind {
    Add,
    Map,
    Link,
    Unlink,
    Sum,
    Top,
    Pick,
    Near,
    Unmap,
}

// A call as its line names it: the numbers in the line's order, the second 0 where the kind has one only. It has acted
// nowhere.
#[derive(Clone, Copy)]
pub struct Call {
    pub kind: CallKind,
    pub x: u32,
    pub y: u32,
    pub to: Remaining,
}

// The kind that the word after `call=` names.
#[tactic(auto, unfolding(text::specs::Text::ascii))]
fn call_word(word: &[u8]) -> Option<CallKind>
    ensures { CallWordOf word.now result }
{
    match word {
        b"add" => Some(CallKind::Add),
        b"map" => Some(CallKind::Map),
        b"link" => Some(CallKind::Link),
        b"unlink" => Some(CallKind::Unlink),
        b"sum" => Some(CallKind::Sum),
        b"top" => Some(CallKind::Top),
        b"pick" => Some(CallKind::Pick),
        b"near" => Some(CallKind::Near),
        b"unmap" => Some(CallKind::Unmap),
        _ => None,
    }
}

// The first number of a line of this kind, and the place after it.
#[tactic(auto, unfolding(text::specs::Text::ascii))]
fn first_field(kind: CallKind, line: &[u8], at: usize) -> Option<(u32, usize)>
    requires { at ≤ length line.now }
    ensures { FieldIf line.now at (first_literals kind) result }
{
    match kind {
        CallKind::Add => number_field(line, at, b" value="),
        CallKind::Map | CallKind::Unmap => number_field(line, at, b" a="),
        CallKind::Link | CallKind::Unlink | CallKind::Near => number_field(line, at, b" key="),
        CallKind::Sum | CallKind::Top | CallKind::Pick => number_field(line, at, b" start="),
    }
}

// The second, where the kind has two: else 0, and the same place.
#[tactic(auto, unfolding(text::specs::Text::ascii))]
fn second_field(kind: CallKind, line: &[u8], at: usize) -> Option<(u32, usize)>
    requires { at ≤ length line.now }
    ensures { FieldIf line.now at (second_literals kind) result }
{
    match kind {
        CallKind::Map | CallKind::Unmap => number_field(line, at, b" b="),
        CallKind::Near => number_field(line, at, b" start="),
        _ => Some((0, at)),
    }
}

// The targets, which end the line: an add has none.
fn call_targets(kind: CallKind, line: &[u8], at: usize) -> Option<TargetsRead>
    requires { at ≤ length line.now }
    ensures { TailOf (call_listed kind) (drop at line.now) result }
{
    match kind {
        CallKind::Add if at < line.len() => None,
        CallKind::Add => Some(TargetsRead::Listed(KeyList::none())),
        _ => targets_field(line, at),
    }
}

// Is the key one, where the kind's first number is a key?
fn key_fits(kind: CallKind, x: u32) -> bool
    ensures { result ≡ key_fits kind x }
{
    match kind {
        CallKind::Link | CallKind::Unlink | CallKind::Near => is_key(x),
        _ => true,
    }
}

// Is it an unmap of an even a?
fn lacks_inverse(kind: CallKind, x: u32) -> bool
    ensures { result ≡ lacks_inverse_of kind x }
{
    match kind {
        CallKind::Unmap => !is_odd(x),
        _ => false,
    }
}

// The targets of a call just read: 11 for one that is no key, then 12.
fn untouched(to: TargetsRead) -> Result<Remaining, Refusal>
    ensures { (t : To) → ToRead t to → answered (λ r. r) result ≡ targets_named t }
{
    match to {
        TargetsRead::All => Ok(Remaining::All { done: false }),
        TargetsRead::Listed(list) => Ok(Remaining::Listed(list.targets()?)),
    }
}

// The answer to a call that came apart: 11 for its key, or what refuses its targets, then 40 for an unmap of an even a.
fn call_made(kind: CallKind, x: u32, y: u32, to: TargetsRead) -> Result<Call, Refusal>
    ensures { (t : To) → ToRead t to → call_answered result ≡ call_made kind x y t }
{
    if !key_fits(kind, x) {
        return Err(Refusal::NotAKey);
    }
    let to = untouched(to)?;
    if lacks_inverse(kind, x) {
        return Err(Refusal::EvenMultiplier);
    }
    Ok(Call { kind, x, y, to })
}

// What follows the word of a call of this kind.
fn call_after(kind: CallKind, line: &[u8], at: usize) -> Result<Call, Refusal>
    requires { at ≤ length line.now }
    ensures { CallAfter kind (drop at line.now) result }
{
    let Some((x, n)) = first_field(kind, line, at) else {
        return Err(Refusal::NotALine);
    };
    let Some((y, m)) = second_field(kind, line, n) else {
        return Err(Refusal::NotALine);
    };
    let Some(to) = call_targets(kind, line, m) else {
        return Err(Refusal::NotALine);
    };
    call_made(kind, x, y, to)
}

// The kind is decided once, by the word after `call=`.
pub fn parse_call(line: &[u8]) -> Result<Call, Refusal>
    ensures { CallRead line.now result }
{
    if too_long(line) {
        return Err(Refusal::NotALine);
    }
    let Some(from) = past(line, 0, b"call=") else {
        return Err(Refusal::NotALine);
    };
    let word = value_at(line, from);
    let Some(kind) = call_word(word) else {
        return Err(Refusal::NotALine);
    };
    call_after(kind, line, from + word.len())
}
