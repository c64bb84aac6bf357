// The lent image: opening it, and its own refusals.
ghost use Rattle.graph.specs.Refused.{number_in};
ghost use Rattle.host.specs.Entries.{opened};
ghost use Rattle.host.specs.Inner.Tests.{Tested};
ghost use Rattle.std.specs.Prelude.{◌≡◌};

use graph::refusal::Refusal;
use panel::returned::returned_number;
use valid::session::{image_valid, open};

// Refuses bytes of another length, or bytes that are the image of no session.
pub fn image_refusal(image: &[u8]) -> Result<(), Refusal>
    ensures { Tested image.now (number_in result) }
{
    if image.len() != 4112 {
        return Err(Refusal::WrongLength);
    }
    if !image_valid(image) {
        return Err(Refusal::NotAnImage);
    }
    Ok(())
}

// Writes the image of the fresh session, whatever the bytes were.
pub fn cg_open(image: &mut [u8]) -> i64
    ensures { record { answer = result; image = image.new } ≡ opened image.old }
{
    if !open(image) {
        return returned_number(Err(Refusal::WrongLength));
    }
    returned_number(Ok(0))
}
