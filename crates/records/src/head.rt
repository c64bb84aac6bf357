// The head of an image.
ghost use Rattle.std.specs.Prelude.{◌≡◌};
ghost use Rattle.records.specs.Records.{encode_head};

// The image's version: docs/IMAGE.md says what each changed.
pub const VERSION: u8 = 3;

// How many nodes, operations and results there are, and the last label given.
#[derive(Clone, Copy)]
pub struct Head {
    pub nodes: u8,
    pub ops: u8,
    pub results: u8,
    pub last: u16,
}

#[tactic(auto, unfolding(crate::specs::Records::encode_head))]
pub fn head_bytes(h: Head) -> [u8; 16]
    ensures { result ≡ encode_head h }
{
    let mut bytes = [0u8; 16];
    bytes[..4].copy_from_slice(&[VERSION, h.nodes, h.ops, h.results]);
    bytes[4..6].copy_from_slice(&h.last.to_le_bytes());
    bytes
}
