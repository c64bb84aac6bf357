// Numbers and key lists in bytes, least significant byte first.
ghost use Rattle.std.specs.Prelude.{◌≡◌, ◌+◌, ◌≤◌, length};
ghost use Rattle.records.specs.Inner.Numbers.{le16, le32, le64, keys_at, all_zero};
ghost use Rattle.records.specs.Bytes.{bytes8, encode_keys};

use graph::keys::Keys;

pub fn u16_at(s: &[u8], at: usize) -> u16
    requires { at + 2 ≤ length s.now }
    ensures { result ≡ le16 s.now at }
{
    u16::from_le_bytes([s[at], s[at + 1]])
}

pub fn u32_at(s: &[u8], at: usize) -> u32
    requires { at + 4 ≤ length s.now }
    ensures { result ≡ le32 s.now at }
{
    u32::from_le_bytes([s[at], s[at + 1], s[at + 2], s[at + 3]])
}

pub fn u64_at(s: &[u8], at: usize) -> u64
    requires { at + 8 ≤ length s.now }
    ensures { result ≡ le64 s.now at }
{
    u64::from_le_bytes(eight_at(s, at))
}

fn eight_at(s: &[u8], at: usize) -> [u8; 8]
    requires { at + 8 ≤ length s.now }
    ensures { result ≡ bytes8 s.now at }
{
    let mut eight = [0u8; 8];
    eight.copy_from_slice(&s[at..at + 8]);
    eight
}

pub fn keys_at(s: &[u8], at: usize) -> Keys
    requires { at + 9 ≤ length s.now }
    ensures { result ≡ keys_at s.now at }
{
    Keys {
        count: s[at],
        key: eight_at(s, at + 1),
    }
}

pub(crate) fn keys_bytes(k: Keys) -> [u8; 9]
    ensures { result ≡ encode_keys k }
{
    let mut bytes = [0u8; 9];
    bytes[0] = k.count;
    bytes[1..].copy_from_slice(&k.key);
    bytes
}

// Whether every byte is zero, which is whether the greatest is: without an exit on the way, so that many bytes are compared at once.
// Both halves are looked at side by side; where the length is odd, they share the byte in the middle.
pub fn all_zero(s: &[u8]) -> bool
    ensures { result ≡ all_zero s.now }
{
    let half = s.len() / 2;
    let front = &s[..s.len() - half];
    let back = &s[half..];
    front
        .iter()
        .zip(back.iter())
        .fold((0, 0), |(x, y): (u8, u8), (a, b)| (x.max(*a), y.max(*b)))
        == (0, 0)
}
