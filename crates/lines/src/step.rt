// Step lines.
ghost use Rattle.std.specs.Prelude.{◌≡◌, [], ◌∷◌, ◌≤◌, cond, Bool, length, drop};
ghost use Rattle.graph.specs.Counts.{tally_place};
ghost use Rattle.lines.specs.Inner.Answers.{step_named, step_asked, step_answered, step_answer, StepRead};
ghost use Rattle.lines.specs.Inner.LineParts.{FieldIf, StepWordOf, step_literals, step_form, StepAfter};

use crate::fields::{number_field, too_long, value_at};
use graph::refusal::Refusal;
use keylists::keylist::is_key;
use text::cut::past;

#[derive(Clone, Copy, Debug, PartialEq, Eq)]
pub enum StepKind {
    Admit,
    Realise,
    Move,
    Finish,
    Join,
    Split,
    Swap,
    Fuse,
    Drain,
}

// A work step, and the station, unit and place in the unit that it names.
#[derive(Clone, Copy, Debug, PartialEq, Eq)]
pub enum WorkStep {
    Admit,
    Realise(u8),
    Move(u8),
    Finish(u8),
    Join(u8, u32),
    Split(u8, u32, u32),
    Swap(u8, u32),
    Fuse(u8, u32),
}

// What a step line asks for.
#[derive(Clone, Copy, Debug, PartialEq, Eq)]
pub enum StepRequest {
    Work(WorkStep),
    Drain,
}

// The place of a step's kind in the rules' list of kinds, which is the tally's order: a number, since `Tally::raised` takes any.
pub fn tally_place(w: WorkStep) -> u8
    ensures { result ≡ tally_place (step_named w) }
{
    match w {
        WorkStep::Admit => 0,
        WorkStep::Realise(_) => 1,
        WorkStep::Move(_) => 2,
        WorkStep::Finish(_) => 3,
        WorkStep::Join(_, _) => 4,
        WorkStep::Split(_, _, _) => 5,
        WorkStep::Swap(_, _) => 6,
        WorkStep::Fuse(_, _) => 7,
    }
}

// The kind that the word after `step=` names. `call_word` is the same of other words: a table of both would be no shorter.
#[tactic(auto, unfolding(text::specs::Text::ascii))]
fn step_word(word: &[u8]) -> Option<StepKind>
    ensures { StepWordOf word.now result }
{
    match word {
        b"admit" => Some(StepKind::Admit),
        b"realise" => Some(StepKind::Realise),
        b"move" => Some(StepKind::Move),
        b"finish" => Some(StepKind::Finish),
        b"join" => Some(StepKind::Join),
        b"split" => Some(StepKind::Split),
        b"swap" => Some(StepKind::Swap),
        b"fuse" => Some(StepKind::Fuse),
        b"drain" => Some(StepKind::Drain),
        _ => None,
    }
}

// How many numbers a line of this kind has: ` at=`, ` unit=` and ` after=`, in this order.
fn numbers(kind: StepKind) -> u8
    ensures { result ≡ length (step_literals kind) }
{
    match kind {
        StepKind::Admit | StepKind::Drain => 0,
        StepKind::Realise | StepKind::Move | StepKind::Finish => 1,
        StepKind::Join | StepKind::Swap | StepKind::Fuse => 2,
        StepKind::Split => 3,
    }
}

// The step of this kind, with those of the numbers that its kind names.
fn step_with(kind: StepKind, at: u8, unit: u32, after: u32) -> StepRequest
    ensures { step_asked result ≡ step_form kind at unit after }
{
    match kind {
        StepKind::Admit => StepRequest::Work(WorkStep::Admit),
        StepKind::Realise => StepRequest::Work(WorkStep::Realise(at)),
        StepKind::Move => StepRequest::Work(WorkStep::Move(at)),
        StepKind::Finish => StepRequest::Work(WorkStep::Finish(at)),
        StepKind::Join => StepRequest::Work(WorkStep::Join(at, unit)),
        StepKind::Split => StepRequest::Work(WorkStep::Split(at, unit, after)),
        StepKind::Swap => StepRequest::Work(WorkStep::Swap(at, unit)),
        StepKind::Fuse => StepRequest::Work(WorkStep::Fuse(at, unit)),
        StepKind::Drain => StepRequest::Drain,
    }
}

// The answer to a step that came apart: refusal 11 where it names a node by no key, else the step.
fn step_made(kind: StepKind, at: u32, unit: u32, after: u32) -> Result<StepRequest, Refusal>
    ensures { step_answered result ≡ step_answer (step_form kind at unit after) }
{
    if numbers(kind) == 0 {
        return Ok(step_with(kind, 0, 0, 0));
    }
    if !is_key(at) {
        return Err(Refusal::NotAKey);
    }
    Ok(step_with(kind, at as u8, unit, after))
}

// The number after `literal`, where the line has that field: else 0, and the same place.
fn field_if(has: bool, line: &[u8], at: usize, literal: &[u8]) -> Option<(u32, usize)>
    requires { at ≤ length line.now }
    ensures { FieldIf line.now at (cond has (literal.now ∷ []) []) result }
{
    if has {
        number_field(line, at, literal)
    } else {
        Some((0, at))
    }
}

// What follows the word of a step of this kind.
fn step_after(kind: StepKind, line: &[u8], at: usize) -> Result<StepRequest, Refusal>
    requires { at ≤ length line.now }
    ensures { StepAfter kind (drop at line.now) result }
{
    let count = numbers(kind);
    let Some((place, n)) = field_if(0 < count, line, at, b" at=") else {
        return Err(Refusal::NotALine);
    };
    let Some((unit, m)) = field_if(1 < count, line, n, b" unit=") else {
        return Err(Refusal::NotALine);
    };
    let Some((after, k)) = field_if(2 < count, line, m, b" after=") else {
        return Err(Refusal::NotALine);
    };
    if k < line.len() {
        return Err(Refusal::NotALine);
    }
    step_made(kind, place, unit, after)
}

// The kind is decided once, by the word after `step=`. Calls are read so too: another type, and other definitions, which closures would have to name.
pub fn parse_step(line: &[u8]) -> Result<StepRequest, Refusal>
    ensures { StepRead line.now result }
{
    if too_long(line) {
        return Err(Refusal::NotALine);
    }
    let Some(from) = past(line, 0, b"step=") else {
        return Err(Refusal::NotALine);
    };
    let word = value_at(line, from);
    let Some(kind) = step_word(word) else {
        return Err(Refusal::NotALine);
    };
    step_after(kind, line, from + word.len())
}
