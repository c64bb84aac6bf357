// What the program prints, and the status that it ends with, by what it is asked for.
ghost use Rattle.std.specs.Prelude.{◌≡◌, ◌≤◌, length};
ghost use Rattle.graph.specs.Refusals.{refused};
ghost use Rattle.graph.specs.Refused.{refusal_number, answered};
ghost use Rattle.cgtool.specs.Commands.{said, load_answer, page, nodes};
ghost use Rattle.cgtool.specs.Inner.Outputs.{Within, status_number, answer_in, Says, SaysTo, Answers};

use crate::commands::Asked;
use graph::refusal::Refusal;
use load::entry::load;
use page::read::page_nodes;
use page::write::page;
use print::lines::put_field;
use text::put::put_bytes;

// What the process exits with. Failed: something was refused, or the output could not be written.
#[derive(Clone, Copy, Debug, PartialEq, Eq)]
pub enum ExitStatus {
    Done = 0,
    Failed = 1,
    WrongArguments = 2,
}

impl ExitStatus {
    // As the system gets it.
    pub fn number(self) -> u8
        ensures { result ≡ status_number self }
    {
        self as u8
    }
}

// The first `length` bytes of the output are printed.
#[derive(Clone, Copy)]
pub struct Said {
    pub length: usize,
    pub status: ExitStatus,
}

fn wrong_arguments() -> Said
    ensures { result ≡ record { length = 0; status = ExitStatus.WrongArguments } }
{
    Said {
        length: 0,
        status: ExitStatus::WrongArguments,
    }
}

fn refusal_said(out: &mut [u8], refusal: Refusal) -> Said
    requires { 19 ≤ length out.old }
    ensures { Says out.new result (said (refused (refusal_number refusal))) }
{
    let p = put_field(out, 0, b"refused=", refusal.number());
    let n = put_bytes(out, p, b"\n");
    Said {
        length: n,
        status: ExitStatus::Failed,
    }
}

// What a function returned that wrote to `out`.
fn returned_said(returned: Result<u32, Refusal>, out: &mut [u8]) -> Said
    requires { (19 ≤ length out.old) × Within out.old (answered (λ n. n) returned) }
    ensures { Says out.new result (said (answer_in out.old (answered (λ n. n) returned))) }
{
    match returned {
        Err(refusal) => refusal_said(out, refusal),
        Ok(n) => Said {
            length: n as usize,
            status: ExitStatus::Done,
        },
    }
}

fn load_said(seed: u32, count: u32, out: &mut [u8]) -> Said
    requires { 3584 ≤ length out.old }
    ensures { Says out.new result (said (load_answer seed count)) }
{
    let returned = load(seed, count, out);
    returned_said(returned, out)
}

// `nodes_said` is the same of another function: each contract names its own definition of what is said.
fn page_said(image: &[u8], out: &mut [u8]) -> Said
    requires { 3584 ≤ length out.old }
    ensures { SaysTo page image.now out.new result }
{
    let returned = page(image, out);
    returned_said(returned, out)
}

fn nodes_said(text: &[u8], out: &mut [u8]) -> Said
    requires { 3584 ≤ length out.old }
    ensures { SaysTo nodes text.now out.new result }
{
    let returned = page_nodes(text, out);
    returned_said(returned, out)
}

// What is printed is at the start of `out`, which has room for 64 lines of at most 56 bytes. `lent` is the image that a script left, or
// what was read as a page.
pub fn answer(asked: Option<Asked>, lent: &[u8], out: &mut [u8]) -> Said
    requires { 3584 ≤ length out.old }
    ensures { Answers asked lent.now out.new result }
{
    let Some(asked) = asked else {
        return wrong_arguments();
    };
    match asked {
        Asked::Load(seed, count) => load_said(seed, count, out),
        Asked::Page => page_said(lent, out),
        Asked::Nodes => nodes_said(lent, out),
    }
}
