// One line, served by the function of the host that its beginning names, and what is printed of it.
ghost use Rattle.std.specs.Prelude.{true, false, ◌≡◌, ◌≤◌, length, take};
ghost use Rattle.text.specs.Text.{ascii, starts_with};
ghost use Rattle.lines.specs.Forms.{line_at};
ghost use Rattle.panel.specs.Returned.{returned_number};
ghost use Rattle.program.specs.Lines.{length_in};
ghost use Rattle.program.specs.Inner.Frames.{AnswerPrinted, Served, Ended};

use graph::refusal::Refusal;
use host::call::call_at;
use host::claim::claim_at;
use host::list::list;
use host::step::{step_answer, step_at};
use print::lines::put_refusal;
use text::cut::{part_to, starts_with};

// The written length that an answer of the host is, or 0.
fn length_in(answer: Result<u32, Refusal>) -> usize
    ensures { result ≡ length_in (returned_number answer) }
{
    answer.map_or(0, |n| n as usize)
}

// Writes the refusal of a line, where the answer is one. Gives the length of what is printed: `n` where the line is served.
pub fn put_answer(out: &mut [u8], line: u64, answer: Result<u32, Refusal>, n: usize) -> usize
    requires { (128 ≤ length out.old) × (n ≤ length out.old) }
    ensures { AnswerPrinted line (returned_number answer) (take n out.old) out.new result }
{
    match answer {
        Ok(_) => n,
        Err(refusal) => put_refusal(out, 0, line, refusal.number()),
    }
}

fn serve_call(image: &mut [u8], frame: &[u8], at: usize, line: u64, out: &mut [u8]) -> usize
    requires { (128 ≤ length out.old) × (starts_with (ascii "step=") (line_at frame.now at) ≡ false) × (starts_with (ascii "claim=") (line_at frame.now at) ≡ false) }
    ensures { Served image.old (line_at frame.now at) line image.new out.new result }
{
    put_answer(out, line, call_at(image, frame, at), 0)
}

// Nothing that is printed shows a tally, so none is lent.
fn serve_step(image: &mut [u8], frame: &[u8], at: usize, line: u64, out: &mut [u8]) -> usize
    requires { (128 ≤ length out.old) × (starts_with (ascii "step=") (line_at frame.now at) ≡ true) }
    ensures { Served image.old (line_at frame.now at) line image.new out.new result }
{
    put_answer(out, line, step_answer(step_at(image, frame, at)), 0)
}

fn serve_claim(image: &mut [u8], frame: &[u8], at: usize, line: u64, out: &mut [u8]) -> usize
    requires { (128 ≤ length out.old) × (starts_with (ascii "claim=") (line_at frame.now at) ≡ true) }
    ensures { Served image.old (line_at frame.now at) line image.new out.new result }
{
    let answer = claim_at(image, frame, at, out);
    put_answer(out, line, answer, length_in(answer))
}

// Serves the line at a place of the frame. What is printed of it stands at the start of `out`, and its length is given.
pub fn serve_line(image: &mut [u8], frame: &[u8], at: usize, line: u64, out: &mut [u8]) -> usize
    requires { 128 ≤ length out.old }
    ensures { Served image.old (line_at frame.now at) line image.new out.new result }
{
    let text = part_to(frame, at, b'\n');
    if starts_with(text, b"step=") {
        serve_step(image, frame, at, line, out)
    } else if starts_with(text, b"claim=") {
        serve_claim(image, frame, at, line, out)
    } else {
        serve_call(image, frame, at, line, out)
    }
}

// The listing, at the start of `out`; its length is given.
pub fn serve_end(image: &[u8], out: &mut [u8]) -> usize
    requires { 16512 ≤ length out.old }
    ensures { Ended image.now out.new result }
{
    length_in(list(image, out))
}
