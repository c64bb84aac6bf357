// The lines of a page, read where they stand.
ghost use Rattle.std.specs.Prelude.{◌+◌, ◌≤◌, length};
ghost use Rattle.pagelines.specs.Inner.Columns.{HeadRead, LineRead};

use crate::columns::{links_left, number_right};
use graph::keys::Keys;
use text::cut::past;

// The node that a line holds.
#[derive(Clone, Copy)]
pub struct NodeLine {
    pub key: u32,
    pub value: u32,
    pub links: Keys,
}

// The count of nodes that the head says.
pub fn read_page_head(page: &[u8]) -> Option<u32>
    requires { 38 ≤ length page.now }
    ensures { HeadRead page.now result }
{
    let from = past(page, 0, b"nodes")?;
    let n = number_right(page, from, 32, 0, 64)?;
    if page[37] != b'\n' {
        return None;
    }
    Some(n)
}

// The node whose line stands at `at`.
pub fn read_page_line(page: &[u8], at: usize) -> Option<NodeLine>
    requires { at + 38 ≤ length page.now }
    ensures { LineRead page.now at result }
{
    let key = number_right(page, at, 2, 1, 64)?;
    if page[at + 2] != b' ' {
        return None;
    }
    let value = number_right(page, at + 3, 10, 0, u32::MAX)?;
    if page[at + 13] != b' ' {
        return None;
    }
    let links = links_left(page, at + 14)?;
    if page[at + 37] != b'\n' {
        return None;
    }
    Some(NodeLine { key, value, links })
}
