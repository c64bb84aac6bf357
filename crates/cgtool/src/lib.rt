// The program cgtool, but for its `main`, which the crate cgtool_main has.
#![tactic(auto)]

pub mod answers;
pub mod commands;

ghost use Rattle.std.specs.Prelude.{◌≤◌, length};
ghost use Rattle.cgtool.specs.Commands.{Status};
ghost use Rattle.cgtool.specs.Inner.Outputs.{Responds};

use answers::{ExitStatus, Said, answer};
use commands::{Asked, asked_for};
use host::lent::cg_open;
use script::serve_script;
use std::env::{Env, FillError};
use streams::read_full;

// Serves standard input as cgrun does, but prints the page of what it leaves.
fn page_answered(rt: &(impl Input + Print), out: &mut [u8]) -> Said
    requires { 3584 ≤ length out.old }
    ensures { Responds (Some Asked.Page) out.new result }
{
    let mut image = [0u8; 4112];
    let mut buffer = [0u8; 65536];
    let mut printed = [0u8; 65536];
    cg_open(&mut image);
    serve_script(rt, &mut image, &mut buffer, &mut printed, false);
    answer(Some(Asked::Page), &image, out)
}

// Reads standard input as a page. A page has at most 2,470 bytes, so a longer input is none, whatever follows.
fn nodes_answered(rt: &impl Input, out: &mut [u8]) -> Said
    requires { 3584 ≤ length out.old }
    ensures { Responds (Some Asked.Nodes) out.new result }
{
    let mut text = [0u8; 2471];
    let n = read_full(&mut rt.reader(), &mut text);
    answer(Some(Asked::Nodes), &text[..n], out)
}

// Reads what the command reads, and no more.
fn answered(rt: &(impl Input + Print), asked: Option<Asked>, out: &mut [u8]) -> Said
    requires { 3584 ≤ length out.old }
    ensures { Responds asked out.new result }
{
    match asked {
        Some(Asked::Page) => page_answered(rt, out),
        Some(Asked::Nodes) => nodes_answered(rt, out),
        Some(Asked::Load(_, _)) | None => answer(asked, b"", out),
    }
}

// Prints what was said and, where the arguments are wrong, the usage. Could what was said be written?
fn write(rt: &(impl Print + Eprint), out: &[u8], said: Said) -> bool
    requires { said.length ≤ length out.now }
{
    let written = rt.write_all(&out[..said.length]).is_ok();
    if said.status == ExitStatus::WrongArguments {
        let _ = rt.eprint(
            "usage: cgtool load SEED COUNT\n       cgtool page <SCRIPT\n       cgtool nodes <PAGE\n",
        );
    }
    written
}

// Puts an argument at the start of a buffer. One that is missing or longer than the buffer is put there as an empty one.
fn argument(rt: &impl Env, place: usize, buffer: &mut [u8]) -> usize
    ensures { result ≤ length buffer.new }
{
    rt.arg(place, buffer).unwrap_or(0)
}

// How many arguments there are, the program's name among them.
fn argument_count(rt: &impl Env) -> usize {
    (0..usize::MAX)
        .find(|&place| matches!(rt.arg(place, &mut []), Err(FillError::NotPresent)))
        .unwrap_or(usize::MAX)
}

// Reads the arguments, prints, and gives the exit status, 1 where the output could not be written. An argument that is longer
// than its buffer comes as an empty one.
pub fn cgtool(rt: &(impl Env + Input + Print + Eprint)) -> i32
    ensures { Status result }
{
    let mut verb = [0u8; 16];
    let mut first = [0u8; 16];
    let mut second = [0u8; 16];
    let mut out = [0u8; 3584];
    let v = argument(rt, 1, &mut verb);
    let f = argument(rt, 2, &mut first);
    let s = argument(rt, 3, &mut second);
    let given = argument_count(rt);
    let asked = asked_for(given, &verb[..v], &first[..f], &second[..s]);
    let said = answered(rt, asked, &mut out);
    if !write(rt, &out, said) {
        return i32::from(ExitStatus::Failed.number());
    }
    i32::from(said.status.number())
}
