// Claims: where the result with a label stands.
ghost use Rattle.state.specs.Inner.State.{flat_in};
ghost use Rattle.state.specs.Inner.ValidImage.{ValidImage};
ghost use Rattle.calls.specs.Inner.Claiming.{FindsFlat};

use graph::refusal::Refusal;
use state::results;
use waiting::is_queued;

pub fn claim_place(image: &[u8], label: u32) -> Result<usize, Refusal>
    requires { ValidImage image.now }
    ensures { FindsFlat label (flat_in image.now) result }
{
    if label == 0 {
        return Err(Refusal::NeverGiven);
    }
    if u32::from(results::last(image)) < label {
        return Err(Refusal::NeverGiven);
    }
    let l = label as u16;
    if is_queued(image, l) {
        return Err(Refusal::StillPending);
    }
    // Results rise by label: that one's is the first above l - 1, if it is there.
    let at = results::place_of(image, l - 1);
    if at < results::total(image) {
        if results::label_at(image, at) == l {
            return Ok(at);
        }
    }
    Err(Refusal::AlreadyClaimed)
}
