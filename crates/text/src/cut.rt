// Parts of a slice, handed back uncopied.
ghost use Rattle.std.specs.Prelude.{◌≡◌, ◌≤◌, length, drop};
ghost use Rattle.text.specs.Text.{up_to, starts_with};
ghost use Rattle.text.specs.Inner.PartsRead.{LiteralAt};

// The part of `s` up to its first byte `stop`, or all of it.
fn up_to(s: &[u8], stop: u8) -> &[u8]
    ensures { result.now ≡ up_to stop s.now }
{
    match s.iter().position(|&b| b == stop) {
        Some(k) => &s[..k],
        None => s,
    }
}

// The part of `s` from `at` to the next byte `stop`, or to the end. A place past the end gives the empty part.
pub fn part_to(s: &[u8], at: usize, stop: u8) -> &[u8]
    ensures { result.now ≡ up_to stop (drop at s.now) }
{
    if s.len() < at {
        return &s[..0];
    }
    up_to(&s[at..], stop)
}

// Where `literal` ends, if it stands in `s` at `at`.
pub fn past(s: &[u8], at: usize, literal: &[u8]) -> Option<usize>
    requires { at ≤ length s.now }
    ensures { LiteralAt s.now at literal.now result }
{
    if s[at..].starts_with(literal) {
        Some(at + literal.len())
    } else {
        None
    }
}

pub fn starts_with(s: &[u8], literal: &[u8]) -> bool
    ensures { result ≡ starts_with literal.now s.now }
{
    s.starts_with(literal)
}
