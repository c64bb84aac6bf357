// Whether bytes are a page, and how many bytes the listing's lines of its nodes have: 35 and 34 leave the output as it was.
ghost use Rattle.page.specs.Inner.Measuring.{WholeLines, LinesMeasured, PageMeasured};

use pagelines::read::{read_page_head, read_page_line};
use print::lines::node_len;

// Reads the lines from the last to the first, so that the list of nodes grows at its front, as it is defined. A key whose line
// was read is marked.
fn lines_len(page: &[u8]) -> Option<usize>
    requires { WholeLines page.now }
    ensures { LinesMeasured page.now result }
{
    let mut seen = [false; 65];
    let mut sum: usize = 0;
    for i in (1..page.len() / 38).rev() {
        let n = read_page_line(page, 38 * i)?;
        let key = n.key as usize;
        if seen[key] {
            return None;
        }
        seen[key] = true;
        sum += node_len(n.key, n.value, n.links);
    }
    Some(sum)
}

// How many bytes the listing's lines of a page's nodes have, if the bytes are a page. The head says how many lines follow it.
pub fn nodes_len(page: &[u8]) -> Option<usize>
    ensures { PageMeasured page.now result }
{
    if page.len() < 38 {
        return None;
    }
    let n = read_page_head(page)?;
    if page.len() != 38 * (n as usize + 1) {
        return None;
    }
    lines_len(page)
}
