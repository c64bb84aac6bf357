// Reads the lines of standard input out of one buffer, as cgrun does, and prints what each was read as. A refused line
// is printed as cgrun prints it. A call is shown as a result line (the line's number, the first number, the targets) and
// a node line (the kind, the second number, the targets), with `to=all` below them where it is for all; a step as a
// result line (the line's number, the kind's place, 8 for drain) and a head (the three numbers); a claim as a result
// line (the line's number, the label).
#![tactic(auto)]

use graph::keys::Keys;
use graph::refusal::Refusal;
use graph::remaining::Remaining;
use lines::call::parse_call;
use lines::claim::parse_claim;
use lines::step::{StepRequest, WorkStep, parse_step, tally_place};
use print::lines::{head_len, node_len, put_head, put_node, put_refusal, put_result, result_len};
use streams::read_full;

// A write that fails is passed over.
#[tactic(auto, using(print::proofs::Refusals::refusal_fits))]
fn show_refusal(rt: &impl Print, line: u32, refusal: Refusal) {
    let mut out = [0u8; 128];
    let n = put_refusal(&mut out, 0, u64::from(line), refusal.number());
    let _ = rt.write_all(&out[..n]);
}

// These three are not one function over a closure: its contract would have to say that the line has room.
fn show_result(rt: &impl Print, label: u32, value: u32, left: Keys) {
    let n = result_len(label, value, left);
    let mut out = [0u8; 128];
    put_result(&mut out, 0, label, value, left);
    let _ = rt.write_all(&out[..n]);
}

fn show_node(rt: &impl Print, key: u32, value: u32, links: Keys) {
    let n = node_len(key, value, links);
    let mut out = [0u8; 128];
    put_node(&mut out, 0, key, value, links);
    let _ = rt.write_all(&out[..n]);
}

fn show_head(rt: &impl Print, nodes: u32, results: u32, pending: u32) {
    let n = head_len(nodes, results, pending);
    let mut out = [0u8; 128];
    put_head(&mut out, 0, nodes, results, pending);
    let _ = rt.write_all(&out[..n]);
}

fn show_call(rt: &impl Print, line: &[u8], number: u32) {
    match parse_call(line) {
        Err(refusal) => show_refusal(rt, number, refusal),
        Ok(call) => {
            let (keys, note) = match call.to {
                Remaining::Listed(keys) => (keys, ""),
                Remaining::All { .. } => (Keys::none(), "to=all\n"),
            };
            show_result(rt, number, call.x, keys);
            show_node(rt, call.kind as u32, call.y, keys);
            let _ = rt.print(note);
        }
    }
}

fn show_numbers(rt: &impl Print, w: WorkStep) {
    let (at, unit, after) = match w {
        WorkStep::Admit => (0, 0, 0),
        WorkStep::Realise(at) | WorkStep::Move(at) | WorkStep::Finish(at) => (at, 0, 0),
        WorkStep::Join(at, unit) | WorkStep::Swap(at, unit) | WorkStep::Fuse(at, unit) => (
            at, unit, 0,
        ),
        WorkStep::Split(at, unit, after) => (at, unit, after),
    };
    show_head(rt, u32::from(at), unit, after);
}

fn show_step(rt: &impl Print, line: &[u8], number: u32) {
    match parse_step(line) {
        Err(refusal) => show_refusal(rt, number, refusal),
        Ok(StepRequest::Work(w)) => {
            show_result(rt, number, u32::from(tally_place(w)), Keys::none());
            show_numbers(rt, w);
        }
        Ok(StepRequest::Drain) => {
            show_result(rt, number, 8, Keys::none());
            show_head(rt, 0, 0, 0);
        }
    }
}

fn show_claim(rt: &impl Print, line: &[u8], number: u32) {
    match parse_claim(line) {
        Err(refusal) => show_refusal(rt, number, refusal),
        Ok(label) => show_result(rt, number, label, Keys::none()),
    }
}

fn show(rt: &impl Print, line: &[u8], number: u32) {
    if line.starts_with(b"step=") {
        show_step(rt, line, number);
    } else if line.starts_with(b"claim=") {
        show_claim(rt, line, number);
    } else {
        show_call(rt, line, number);
    }
}

fn show_all(rt: &impl Print, frame: &[u8]) {
    for (line, number) in frame.split_inclusive(|&c| c == b'\n').zip(1..) {
        show(rt, line.strip_suffix(b"\n").unwrap_or(line), number);
    }
}

fn main(rt: HostRuntime) {
    let mut buffer = [0u8; 65536];
    let n = read_full(&mut rt.reader(), &mut buffer);
    show_all(&rt, &buffer[..n]);
}
