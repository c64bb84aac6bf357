// A line of 64 bytes or more, whose bytes come in pieces.
ghost use Rattle.std.specs.Prelude.{List, ◌++◌, ◌≡◌, ℕ, length};
ghost use Rattle.keylists.specs.Inner.ListsRead.{KeysOf};
ghost use Rattle.lines.specs.Inner.Answers.{call_answered, CallRead};
ghost use Rattle.longlines.specs.Inner.LongLines.{CutAt, LongOf, retargeted};

use graph::refusal::Refusal;
use graph::remaining::Remaining;
use keylists::keylist::KeyList;
use keylists::sofar::ListSoFar;
use lines::call::{Call, parse_call};

// What the line was read as up to its last equals sign within the first 64 bytes, as if it ended there; the list after it, if
// one may begin so; and the line's length so far, 256 for any from 256 on.
#[derive(Clone, Copy)]
pub struct LongLine {
    pub start: Result<Call, Refusal>,
    pub list: Option<ListSoFar>,
    pub length: usize,
}

impl LongLine {
    // No long line.
    pub fn none() -> Self
        ensures { result.length ≡ 0 }
    {
        LongLine {
            start: Err(Refusal::NotALine),
            list: None,
            length: 0,
        }
    }
}

// The place after the last equals sign, 0 where there is none.
fn list_at(line: &[u8]) -> usize
    ensures { CutAt line.now result }
{
    match line.iter().rposition(|&b| b == b'=') {
        Some(k) => k + 1,
        None => 0,
    }
}

// The line whose first 64 bytes these are.
pub fn begin(bytes: &[u8]) -> LongLine
    requires { length bytes.now ≡ 64 }
    ensures { LongOf bytes.now result }
{
    let at = list_at(bytes);
    LongLine {
        start: parse_call(&bytes[..at]),
        list: ListSoFar::none().with_bytes(&bytes[at..]),
        length: 64,
    }
}

// The line with more of its bytes. A line of 256 bytes is 10, whatever follows.
pub fn go_on(l: LongLine, piece: &[u8]) -> LongLine
    ensures { (line : List ℕ) → LongOf line l → LongOf (line ++ piece.now) result }
{
    if 255 < l.length {
        return l;
    }
    if 255 - l.length < piece.len() {
        return LongLine { length: 256, ..l };
    }
    let list = match l.list {
        Some(list) => list.with_bytes(piece),
        None => None,
    };
    LongLine {
        list,
        length: l.length + piece.len(),
        ..l
    }
}

// The answer to a front with a list after it: 10 and 11 come before what refuses the list, 40 after it.
fn with_targets(start: Result<Call, Refusal>, list: KeyList) -> Result<Call, Refusal>
    ensures { (ts : List ℕ) → KeysOf ts list → call_answered result ≡ retargeted (call_answered start) ts }
{
    match start {
        Err(refusal) if refusal.number() < 40 => Err(refusal),
        Err(refusal) => {
            list.targets()?;
            Err(refusal)
        }
        Ok(call) => {
            let keys = list.targets()?;
            Ok(Call {
                to: Remaining::Listed(keys),
                ..call
            })
        }
    }
}

// What the line is read as, where these are all its bytes.
pub fn read_long(l: LongLine) -> Result<Call, Refusal>
    ensures { (line : List ℕ) → LongOf line l → CallRead line result }
{
    if 255 < l.length {
        return Err(Refusal::NotALine);
    }
    let Some(list) = l.list else {
        return Err(Refusal::NotALine);
    };
    let Some(keys) = list.ended() else {
        return Err(Refusal::NotALine);
    };
    with_targets(l.start, keys)
}
