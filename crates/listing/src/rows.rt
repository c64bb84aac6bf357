// The lines after the head: each is a node's or a result's.
ghost use Rattle.std.specs.Prelude.{◌≡◌, [], ◌<◌, length, get_or};
ghost use Rattle.state.specs.Inner.Operations.{Bounded};
ghost use Rattle.state.specs.Inner.State.{flat_in, Proper};
ghost use Rattle.listing.specs.Inner.Rows.{row_text, rows_of};

use state::nodes::Body;
use state::results::CallResult;
use state::{nodes, results};

#[derive(Clone, Copy)]
pub enum Row {
    Node(Body),
    Result(CallResult),
}

pub fn rows_total(image: &[u8]) -> usize
    requires { Proper image.now }
    ensures { Bounded (length (rows_of (flat_in image.now))) 128 result }
{
    nodes::total(image) + results::total(image)
}

// The image's nodes stand from the last station on, so the last of them comes first.
pub fn row_at(image: &[u8], i: usize) -> Row
    requires { (Proper image.now) × (i < length (rows_of (flat_in image.now))) }
    ensures { row_text result ≡ get_or (rows_of (flat_in image.now)) i [] }
{
    let n = nodes::total(image);
    if i < n {
        Row::Node(nodes::body_at(image, n - 1 - i))
    } else {
        Row::Result(results::call_result_at(image, i - n))
    }
}
