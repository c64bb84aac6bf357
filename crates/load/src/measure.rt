// The length of a load, known before a byte is written: 47 leaves the output as it was.
ghost use Rattle.std.specs.Prelude.{◌≡◌, ◌≤◌, leb, length};
ghost use Rattle.load.specs.Load.{load_text};

use crate::write::put_drawn;

// No line is longer.
const LINE: usize = 56;

// Each line is written aside, one over the other.
fn load_len(seed: u32, count: u32) -> usize
    requires { count ≤ 64 }
    ensures { result ≡ length (load_text seed count) }
{
    let mut line = [0u8; LINE];
    let mut state = seed;
    let mut sum: usize = 0;
    for _ in 0..count {
        let w = put_drawn(&mut line, 0, state);
        sum += w.at;
        state = w.state;
    }
    sum
}

// Is there room for the lines? 3,584 bytes hold any load, so with that much room nothing is measured.
pub fn fits(seed: u32, count: u32, room: usize) -> bool
    requires { count ≤ 64 }
    ensures { result ≡ leb (length (load_text seed count)) room }
{
    64 * LINE <= room || load_len(seed, count) <= room
}
