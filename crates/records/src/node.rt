// The record of a node.
ghost use Rattle.std.specs.Prelude.{◌≡◌, length};
ghost use Rattle.records.specs.Inner.Decoded.{decode_node, Encodes};
ghost use Rattle.records.specs.Records.{encode_node};

use crate::bytes::{keys_at, keys_bytes, u16_at, u32_at};
use graph::keys::Keys;

#[derive(Clone, Copy)]
pub struct NodeRecord {
    pub value: u32,
    pub key: u8,
    pub links: Keys,
    pub spare: u16,
}

#[tactic(auto, unfolding(crate::specs::Inner::Decoded::decode_node))]
pub fn read_node(s: &[u8]) -> NodeRecord
    requires { length s.now ≡ 16 }
    ensures { result ≡ decode_node s.now }
{
    NodeRecord {
        value: u32_at(s, 0),
        key: s[4],
        links: keys_at(s, 5),
        spare: u16_at(s, 14),
    }
}

pub fn node_bytes(n: NodeRecord) -> [u8; 16]
    ensures { Encodes encode_node decode_node n result }
{
    let mut bytes = [0u8; 16];
    bytes[..4].copy_from_slice(&n.value.to_le_bytes());
    bytes[4] = n.key;
    bytes[5..14].copy_from_slice(&keys_bytes(n.links));
    bytes[14..].copy_from_slice(&n.spare.to_le_bytes());
    bytes
}
