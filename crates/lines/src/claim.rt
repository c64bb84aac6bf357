// Claim lines.
ghost use Rattle.lines.specs.Inner.Answers.{ClaimRead};

use crate::fields::{number_field, too_long};
use graph::refusal::Refusal;

// The label, and nothing after it.
pub fn parse_claim(line: &[u8]) -> Result<u32, Refusal>
    ensures { ClaimRead line.now result }
{
    if too_long(line) {
        return Err(Refusal::NotALine);
    }
    let Some((label, n)) = number_field(line, 0, b"claim=") else {
        return Err(Refusal::NotALine);
    };
    if n < line.len() {
        return Err(Refusal::NotALine);
    }
    Ok(label)
}
