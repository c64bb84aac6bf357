// The listing of the session that the image holds.
ghost use Rattle.panel.specs.Returned.{returned_number};
ghost use Rattle.host.specs.Entries.{Lists};

use crate::lent::image_refusal;
use graph::refusal::Refusal;
use listing::measure::listing_len;
use listing::write::put_listing;
use panel::returned::returned_number;

// Writes the listing, and gives the written length.
pub fn list(image: &[u8], out: &mut [u8]) -> Result<u32, Refusal>
    ensures { Lists image.now out.old (record { answer = returned_number result; output = out.new }) }
{
    image_refusal(image)?;
    let n = listing_len(image);
    if n > out.len() {
        return Err(Refusal::ShortOutput);
    }
    put_listing(out, image);
    Ok(n as u32)
}

// The same, by number.
pub fn cg_list(image: &[u8], out: &mut [u8]) -> i64
    ensures { Lists image.now out.old (record { answer = result; output = out.new }) }
{
    returned_number(list(image, out))
}
