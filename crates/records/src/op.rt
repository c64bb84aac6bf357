// The record of an operation.
ghost use Rattle.std.specs.Prelude.{◌≡◌, length};
ghost use Rattle.records.specs.Inner.Decoded.{decode_op, Encodes};
ghost use Rattle.records.specs.Records.{encode_op};

use crate::bytes::{keys_at, keys_bytes, u32_at};
use crate::labels::{Labels, labels_at, labels_bytes};
use graph::keys::Keys;

#[derive(Clone, Copy)]
pub struct OpRecord {
    pub station: u8,
    pub opens: u8,
    // As the image has it, whatever the byte.
    pub kind: u8,
    pub key: u8,
    pub a: u32,
    pub b: u32,
    pub targets: Keys,
    pub labels: Labels,
    // 1 for an all-call, and 1 where it is done at this station.
    pub all: u8,
    pub mark: u8,
}

#[tactic(auto, unfolding(crate::specs::Inner::Decoded::decode_op))]
pub fn read_op(s: &[u8]) -> OpRecord
    requires { length s.now ≡ 32 }
    ensures { result ≡ decode_op s.now }
{
    OpRecord {
        station: s[0],
        opens: s[1],
        kind: s[2],
        key: s[3],
        a: u32_at(s, 4),
        b: u32_at(s, 8),
        targets: keys_at(s, 12),
        labels: labels_at(s, 21),
        all: s[30],
        mark: s[31],
    }
}

pub fn op_bytes(o: OpRecord) -> [u8; 32]
    ensures { Encodes encode_op decode_op o result }
{
    let mut bytes = [0u8; 32];
    bytes[0] = o.station;
    bytes[1] = o.opens;
    bytes[2] = o.kind;
    bytes[3] = o.key;
    bytes[4..8].copy_from_slice(&o.a.to_le_bytes());
    bytes[8..12].copy_from_slice(&o.b.to_le_bytes());
    bytes[12..21].copy_from_slice(&keys_bytes(o.targets));
    bytes[21..30].copy_from_slice(&labels_bytes(o.labels));
    bytes[30] = o.all;
    bytes[31] = o.mark;
    bytes
}
