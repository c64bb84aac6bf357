// The record of a result.
ghost use Rattle.std.specs.Prelude.{◌≡◌, length};
ghost use Rattle.records.specs.Inner.Decoded.{decode_result, Encodes};
ghost use Rattle.records.specs.Records.{encode_result};

use crate::bytes::{keys_at, keys_bytes, u16_at, u32_at};
use graph::keys::Keys;

#[derive(Clone, Copy)]
pub struct ResultRecord {
    pub label: u16,
    pub value: u32,
    pub left: Keys,
    pub spare: u8,
}

#[tactic(auto, unfolding(crate::specs::Inner::Decoded::decode_result))]
pub fn read_result(s: &[u8]) -> ResultRecord
    requires { length s.now ≡ 16 }
    ensures { result ≡ decode_result s.now }
{
    ResultRecord {
        label: u16_at(s, 0),
        value: u32_at(s, 2),
        left: keys_at(s, 6),
        spare: s[15],
    }
}

pub fn result_bytes(r: ResultRecord) -> [u8; 16]
    ensures { Encodes encode_result decode_result r result }
{
    let mut bytes = [0u8; 16];
    bytes[..2].copy_from_slice(&r.label.to_le_bytes());
    bytes[2..6].copy_from_slice(&r.value.to_le_bytes());
    bytes[6..15].copy_from_slice(&keys_bytes(r.left));
    bytes[15] = r.spare;
    bytes
}
