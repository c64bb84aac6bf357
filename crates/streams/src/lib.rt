// How the programs read: a read that fails ends the input, as its end does.
#![tactic(auto)]

ghost use Rattle.std.specs.Prelude.{◌≤◌, length};

use std::io::Read;

// What one read puts at the start of a buffer: 0 where the input has ended.
pub fn read_some(input: &mut impl Read, buffer: &mut [u8]) -> usize
    ensures { result ≤ length buffer.new }
{
    input.read(buffer).unwrap_or(0)
}

// Reads until the buffer is full or the input ends. `read_exact` does not say where an input ended before.
pub fn read_full(input: &mut impl Read, buffer: &mut [u8]) -> usize
    ensures { result ≤ length buffer.new }
{
    let mut filled = 0;
    while filled < buffer.len() {
        let got = read_some(input, &mut buffer[filled..]);
        if got == 0 {
            break;
        }
        filled += got;
    }
    filled
}
