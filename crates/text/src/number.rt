// Decimal numbers: those of 32 bits read, measured and written, those of 64 bits written.
ghost use Rattle.std.specs.Prelude.{◌≡◌, ◌+◌, ◌≤◌, length};
ghost use Rattle.text.specs.Text.{decimal};
ghost use Rattle.text.specs.Inner.Put.{TextPut};
ghost use Rattle.text.specs.Inner.PartsRead.{DecimalOf, LengthOf};

// The number whose decimal is the whole of `s`: no leading zeros, at most 4,294,967,295.
pub fn read_number(s: &[u8]) -> Option<u32>
    ensures { DecimalOf s.now result }
{
    if s.is_empty() {
        return None;
    }
    if s[0] == b'0' {
        return if s.len() == 1 { Some(0) } else { None };
    }
    let mut v: u32 = 0;
    for &b in s {
        if !b.is_ascii_digit() {
            return None;
        }
        v = v.checked_mul(10)?.checked_add(u32::from(b - b'0'))?;
    }
    Some(v)
}

// How many digits `v` has.
pub fn decimal_len(v: u32) -> usize
    ensures { LengthOf v result }
{
    if v < 10 {
        return 1;
    }
    decimal_len(v / 10) + 1
}

// Writes the decimal of `v` from `at` on, and returns the place after it.
pub fn put_wide(out: &mut [u8], at: usize, v: u64) -> usize
    requires { at + length (decimal v) ≤ length out.old }
    ensures { TextPut out.old at (decimal v) out.new result }
{
    if v < 10 {
        out[at] = (48 + v) as u8;
        return at + 1;
    }
    let n = put_wide(out, at, v / 10);
    out[n] = (48 + v % 10) as u8;
    n + 1
}

// The same of a number of 32 bits, as all numbers of a session are.
pub fn put_decimal(out: &mut [u8], at: usize, v: u32) -> usize
    requires { at + length (decimal v) ≤ length out.old }
    ensures { TextPut out.old at (decimal v) out.new result }
{
    put_wide(out, at, u64::from(v))
}
