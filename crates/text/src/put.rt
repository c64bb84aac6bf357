// Bytes written into a lent buffer.
ghost use Rattle.std.specs.Prelude.{◌+◌, ◌≤◌, length};
ghost use Rattle.text.specs.Inner.Put.{TextPut};

// Writes `literal` from `at` on, and returns the place after it. Byte by byte: a copy of a length not known beforehand would be a call
// of the C library, of which what a host in C links asks no more than it does.
pub fn put_bytes(out: &mut [u8], at: usize, literal: &[u8]) -> usize
    requires { at + length literal.now ≤ length out.old }
    ensures { TextPut out.old at literal.now out.new result }
{
    for i in 0..literal.len() {
        out[at + i] = literal[i];
    }
    at + literal.len()
}
