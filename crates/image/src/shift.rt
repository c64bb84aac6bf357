// Bytes moved and cleared within a slice.
ghost use Rattle.std.specs.Prelude.{◌+◌, ◌≤◌, length};
ghost use Rattle.image.specs.Inner.Moves.{MovedDown, MovedUp, Zeroed};

// The bytes from at + by up to end move down to at.
pub fn move_down(s: &mut [u8], at: usize, end: usize, by: usize)
    requires { (at + by ≤ end) × (end ≤ length s.old) }
    ensures { MovedDown at end by s.old s.new }
{
    for i in at..end - by {
        s[i] = s[i + by];
    }
}

// The bytes from at up to end move up to at + by, the last first.
pub fn move_up(s: &mut [u8], at: usize, end: usize, by: usize)
    requires { (at ≤ end) × (end + by ≤ length s.old) }
    ensures { MovedUp at end by s.old s.new }
{
    for i in (at..end).rev() {
        s[i + by] = s[i];
    }
}

pub fn clear(s: &mut [u8], from: usize, to: usize)
    requires { (from ≤ to) × (to ≤ length s.old) }
    ensures { Zeroed from to s.old s.new }
{
    s[from..to].fill(0);
}
