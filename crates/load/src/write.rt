// The lines, written.
ghost use Rattle.std.specs.Prelude.{◌++◌, ◌+◌, ◌≤◌, length};
ghost use Rattle.graph.specs.Packed.{listed};
ghost use Rattle.graph.specs.Targets.{named};
ghost use Rattle.text.specs.Text.{ascii, commas};
ghost use Rattle.text.specs.Inner.Put.{TextPut};
ghost use Rattle.print.specs.Printed.{numbered, newline};
ghost use Rattle.load.specs.Load.{call_drawn, line_text, load_text};
ghost use Rattle.load.specs.Inner.Values.{call_made, LineWritten};

use crate::calls::call_drawn;
use crate::kind::Kind;
use graph::keys::Keys;
use print::keylist::put_keys;
use print::lines::{put_field, put_line};
use text::put::put_bytes;

// Writes a number after its name, the targets and a newline.
#[tactic(auto, unfolding(text::specs::Text::ascii))]
fn put_one(out: &mut [u8], at: usize, name: &[u8], x: u32, to: Keys) -> usize
    requires { at + length (numbered name.now x ++ ascii " to=" ++ commas (listed to) ++ newline) ≤ length out.old }
    ensures { TextPut out.old at (numbered name.now x ++ ascii " to=" ++ commas (listed to) ++ newline) out.new result }
{
    let p = put_field(out, at, name, x);
    let q = put_bytes(out, p, b" to=");
    let r = put_keys(out, q, to);
    put_bytes(out, r, b"\n")
}

#[tactic(auto, unfolding(text::specs::Text::ascii))]
fn put_add(out: &mut [u8], at: usize, value: u32) -> usize
    requires { at + length (numbered (ascii "call=add value=") value ++ newline) ≤ length out.old }
    ensures { TextPut out.old at (numbered (ascii "call=add value=") value ++ newline) out.new result }
{
    let p = put_field(out, at, b"call=add value=", value);
    put_bytes(out, p, b"\n")
}

// Writes a call's line from `at` on, and returns the place after it.
#[tactic(auto, unfolding(text::specs::Text::ascii))]
fn put_call(out: &mut [u8], at: usize, kind: Kind, x: u32, y: u32, to: Keys) -> usize
    requires { at + length (line_text (call_made kind x y (named (listed to)))) ≤ length out.old }
    ensures { TextPut out.old at (line_text (call_made kind x y (named (listed to)))) out.new result }
{
    match kind {
        Kind::Add => put_add(out, at, x),
        Kind::Map => put_line(out, at, b"call=map a=", x, b" b=", y, b" to=", to),
        Kind::Link => put_one(out, at, b"call=link key=", x, to),
        Kind::Unlink => put_one(out, at, b"call=unlink key=", x, to),
        Kind::Sum => put_one(out, at, b"call=sum start=", x, to),
        Kind::Top => put_one(out, at, b"call=top start=", x, to),
        Kind::Pick => put_one(out, at, b"call=pick start=", x, to),
        Kind::Near => put_line(out, at, b"call=near key=", x, b" start=", y, b" to=", to),
    }
}

// The place after a line, and the state that its draws leave.
#[derive(Clone, Copy)]
pub struct Written {
    pub at: usize,
    pub state: u32,
}

// Writes the line that is drawn from this state on, from `at` on.
pub fn put_drawn(out: &mut [u8], at: usize, state: u32) -> Written
    requires { at + length (line_text (call_drawn state).call) ≤ length out.old }
    ensures { LineWritten out.old at state out.new result }
{
    let c = call_drawn(state);
    Written {
        at: put_call(out, at, c.kind, c.x, c.y, c.to),
        state: c.state,
    }
}

// Writes the lines of a load from the buffer's start on, and returns their length.
pub fn put_load(out: &mut [u8], seed: u32, count: u32) -> usize
    requires { length (load_text seed count) ≤ length out.old }
    ensures { TextPut out.old 0 (load_text seed count) out.new result }
{
    let mut state = seed;
    let mut p: usize = 0;
    for _ in 0..count {
        let w = put_drawn(out, p, state);
        p = w.at;
        state = w.state;
    }
    p
}
