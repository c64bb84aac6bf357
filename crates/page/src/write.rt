// The page of the session that an image holds.
ghost use Rattle.std.specs.Prelude.{◌+◌, ◌*◌, ◌≤◌, length};
ghost use Rattle.graph.specs.Refused.{answered};
ghost use Rattle.graph.specs.Sessions.{graph_of};
ghost use Rattle.text.specs.Text.{texts};
ghost use Rattle.text.specs.Inner.Put.{TextPut};
ghost use Rattle.pagelines.specs.Page.{page_line, page_text};
ghost use Rattle.valid.specs.Inner.Decoded.{session_of};
ghost use Rattle.state.specs.Inner.State.{flat_in};
ghost use Rattle.state.specs.Inner.ValidImage.{ValidImage};
ghost use Rattle.page.specs.Entries.{written, WritesPage};
ghost use Rattle.page.specs.Inner.Returning.{returns};

use graph::refusal::Refusal;
use host::lent::image_refusal;
use pagelines::write::{put_page_head, put_page_line};
use panel::returned::returned_number;
use state::nodes;

// Writes a line for each node. The image's nodes stand from the last station on, so the last of them comes first.
fn put_lines(out: &mut [u8], at: usize, image: &[u8]) -> usize
    requires { (ValidImage image.now) × (at + 38 * length (flat_in image.now).nodes ≤ length out.old) }
    ensures { TextPut out.old at (texts page_line (graph_of (session_of image.now).stations)) out.new result }
{
    let mut p = at;
    for i in (0..nodes::total(image)).rev() {
        let b = nodes::body_at(image, i);
        p = put_page_line(out, p, u32::from(b.key), b.value, b.links);
    }
    p
}

// Writes the page from the buffer's start on, and returns its length.
fn put_page(out: &mut [u8], image: &[u8]) -> usize
    requires { (ValidImage image.now) × (38 * (length (flat_in image.now).nodes + 1) ≤ length out.old) }
    ensures { TextPut out.old 0 (page_text (graph_of (session_of image.now).stations)) out.new result }
{
    let n = nodes::total(image);
    let p = put_page_head(out, 0, n as u32);
    put_lines(out, p, image)
}

// Writes the page, and gives the written length. Each line has 38 bytes, so nothing is measured.
pub fn page(image: &[u8], out: &mut [u8]) -> Result<u32, Refusal>
    ensures { WritesPage returns image.now out.old (returns (answered (λ n. n) result) out.new) }
{
    image_refusal(image)?;
    if out.len() < 38 * (nodes::total(image) + 1) {
        return Err(Refusal::ShortForPage);
    }
    Ok(put_page(out, image) as u32)
}

// The same, by number.
pub fn cg_page(image: &[u8], out: &mut [u8]) -> i64
    ensures { WritesPage written image.now out.old (record { answer = result; output = out.new }) }
{
    returned_number(page(image, out))
}
