// What a host in C asks for.
ghost use Rattle.std.specs.Prelude.{◌≡◌};
ghost use Rattle.load.specs.Entry.{loaded};
ghost use Rattle.load.specs.Inner.Values.{LoadReturned};

use crate::measure::fits;
use crate::write::put_load;
use graph::refusal::Refusal;
use panel::returned::returned_number;

// Writes the lines of a seed, and gives the written length.
pub fn load(seed: u32, count: u32, out: &mut [u8]) -> Result<u32, Refusal>
    ensures { LoadReturned seed count out.old result out.new }
{
    if 64 < count {
        return Err(Refusal::LoadTooLong);
    }
    if !fits(seed, count, out.len()) {
        return Err(Refusal::ShortForLoad);
    }
    Ok(put_load(out, seed, count) as u32)
}

// The same, by number.
pub fn cg_load(seed: u32, count: u32, out: &mut [u8]) -> i64
    ensures { record { answer = result; output = out.new } ≡ loaded seed count out.old }
{
    returned_number(load(seed, count, out))
}
