// A page read back as the listing's lines of its nodes.
ghost use Rattle.graph.specs.Refused.{answered};
ghost use Rattle.page.specs.Entries.{written, ReadsPage};
ghost use Rattle.page.specs.Inner.Measuring.{RoomForNodes, NodesPut};
ghost use Rattle.page.specs.Inner.Returning.{returns};

use crate::measure::nodes_len;
use graph::refusal::Refusal;
use pagelines::read::read_page_line;
use panel::returned::returned_number;
use print::lines::put_node;

// Writes the listing's lines of a page's nodes from the buffer's start on.
fn put_nodes(out: &mut [u8], page: &[u8])
    requires { RoomForNodes page.now out.old }
    ensures { NodesPut page.now out.old out.new }
{
    let mut p = 0;
    for i in 1..page.len() / 38 {
        let n = read_page_line(page, 38 * i).unwrap();
        p = put_node(out, p, n.key, n.value, n.links);
    }
}

// Writes the lines of a page's nodes, and gives the written length.
pub fn page_nodes(page: &[u8], out: &mut [u8]) -> Result<u32, Refusal>
    ensures { ReadsPage returns page.now out.old (returns (answered (λ n. n) result) out.new) }
{
    let n = nodes_len(page).ok_or(Refusal::NotAPage)?;
    if out.len() < n {
        return Err(Refusal::ShortForPage);
    }
    put_nodes(out, page);
    Ok(n as u32)
}

// The same, by number.
pub fn cg_page_nodes(page: &[u8], out: &mut [u8]) -> i64
    ensures { ReadsPage written page.now out.old (record { answer = result; output = out.new }) }
{
    returned_number(page_nodes(page, out))
}
