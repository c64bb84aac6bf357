// Claims on an image that holds a valid session: the result is found, read and removed. Between the last two a host writes it, where
// there is room.
ghost use Rattle.std.specs.Prelude.{◌≡◌, get_or};
ghost use Rattle.flat.specs.Inner.Queues.{remove_at};
ghost use Rattle.graph.specs.Acceptance.{keeping};
ghost use Rattle.valid.specs.Values.{encode};
ghost use Rattle.valid.specs.Inner.Decoded.{session_of};
ghost use Rattle.state.specs.Inner.Results.{IsCallResult, no_result};
ghost use Rattle.state.specs.Inner.State.{flat_in};
ghost use Rattle.state.specs.Inner.ValidImage.{ValidImage};
ghost use Rattle.session.specs.Inner.Claims.{Finds, Claimable};

use calls::claim::claim_place;
use graph::refusal::Refusal;
use state::results;
use state::results::CallResult;

// Where the result with that label stands; or why it can't be claimed.
pub fn find(image: &[u8], label: u32) -> Result<usize, Refusal>
    requires { ValidImage image.now }
    ensures { Finds label image.now result }
{
    claim_place(image, label)
}

// The result at this place.
pub fn call_result(image: &[u8], at: usize) -> CallResult
    requires { (ValidImage image.now) × (Claimable image.now at) }
    ensures { IsCallResult (get_or (flat_in image.now).results at no_result) result }
{
    results::call_result_at(image, at)
}

// The session holds the result at this place no more.
pub fn remove(image: &mut [u8], at: usize)
    requires { (ValidImage image.old) × (Claimable image.old at) }
    ensures { image.new ≡ encode (keeping (session_of image.old) (remove_at at (flat_in image.old).results)) }
{
    results::remove(image, at);
}
