// Lists of at most four labels, by value.
ghost use Rattle.std.specs.Prelude.{◌≡◌, ◌+◌, ◌≤◌, length};
ghost use Rattle.records.specs.Inner.Decoded.{labels_at};
ghost use Rattle.records.specs.Records.{encode_labels};

use crate::bytes::u16_at;

// A list of labels: the first `count` of `label`. In a valid image the places after them are zero.
#[derive(Clone, Copy)]
pub struct Labels {
    pub count: u8,
    pub label: [u16; 4],
}

pub fn labels_at(s: &[u8], at: usize) -> Labels
    requires { at + 9 ≤ length s.now }
    ensures { result ≡ labels_at s.now at }
{
    Labels {
        count: s[at],
        label: [
            u16_at(s, at + 1),
            u16_at(s, at + 3),
            u16_at(s, at + 5),
            u16_at(s, at + 7),
        ],
    }
}

pub(crate) fn labels_bytes(l: Labels) -> [u8; 9]
    ensures { result ≡ encode_labels l }
{
    let label = l.label;
    let mut bytes = [0u8; 9];
    bytes[0] = l.count;
    bytes[1..3].copy_from_slice(&label[0].to_le_bytes());
    bytes[3..5].copy_from_slice(&label[1].to_le_bytes());
    bytes[5..7].copy_from_slice(&label[2].to_le_bytes());
    bytes[7..].copy_from_slice(&label[3].to_le_bytes());
    bytes
}
