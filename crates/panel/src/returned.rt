// The number that the host gets for what an entry answered.
ghost use Rattle.std.specs.Prelude.{◌≡◌};
ghost use Rattle.panel.specs.Returned.{answer_number, answer_in_numbers, returned_number};

use graph::refusal::Refusal;

// A label, a length or 0 as it is, and a refusal's number negated, whichever number that is.
pub fn answer_number(a: Result<u32, u32>) -> i64
    ensures { result ≡ answer_number (answer_in_numbers a) }
{
    match a {
        Ok(n) => i64::from(n),
        Err(refusal) => -i64::from(refusal),
    }
}

// The same of a refusal by name.
pub fn returned_number(a: Result<u32, Refusal>) -> i64
    ensures { result ≡ returned_number a }
{
    answer_number(a.map_err(|refusal| refusal.number()))
}
