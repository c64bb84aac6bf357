// States and draws.
ghost use Rattle.std.specs.Prelude.{◌≡◌};
ghost use Rattle.load.specs.Load.{next, draw, key_of};

use graph::affine::mul_add;

// The state after `state`.
#[tactic(auto, unfolding(crate::specs::Load::next))]
pub fn next(state: u32) -> u32
    ensures { result ≡ next state }
{
    mul_add(1664525, state, 1013904223)
}

// The state's upper half.
#[tactic(auto, unfolding(crate::specs::Load::draw))]
pub fn draw(state: u32) -> u32
    ensures { result ≡ draw state }
{
    state / 65536
}

pub fn key(state: u32) -> u8
    ensures { result ≡ key_of (draw state) }
{
    (draw(state) % 64) as u8 + 1
}
