// What a host in C links of the crate load: its functions by number, exported under their names with the same contracts.
#![tactic(auto)]

ghost use Rattle.std.specs.Prelude.{◌≡◌};
ghost use Rattle.load.specs.Entry.{loaded};

// Writes the lines of a seed, and gives the written length.
#[unsafe(no_mangle)]
pub extern "C" fn cg_load(seed: u32, count: u32, out: &mut [u8]) -> i64
    ensures { record { answer = result; output = out.new } ≡ loaded seed count out.old }
{
    load::entry::cg_load(seed, count, out)
}
