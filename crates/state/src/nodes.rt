// The nodes, in the image.
ghost use Rattle.std.specs.Prelude.{◌≡◌, [], ◌∷◌, ◌++◌, ◌<◌, length, get_or, set};
ghost use Rattle.graph.specs.Packed.{listed, packed};
ghost use Rattle.graph.specs.Nodes.{new_node};
ghost use Rattle.flat.specs.Inner.FlatSteps.{no_node, known};
ghost use Rattle.state.specs.Inner.Operations.{Bounded};
ghost use Rattle.state.specs.Inner.State.{flat_in, Proper, Shows, with_nodes};
ghost use Rattle.state.specs.Inner.Results.{IsBody, node_with};

use graph::keys::Keys;
use image::read::{node_at, node_count};
use image::write::{append_node, put_node};
use records::node::NodeRecord;

// A node's key, value and links.
#[derive(Clone, Copy)]
pub struct Body {
    pub key: u8,
    pub value: u32,
    pub links: Keys,
}

pub fn total(image: &[u8]) -> usize
    requires { Proper image.now }
    ensures { Bounded (length (flat_in image.now).nodes) 64 result }
{
    node_count(image)
}

// Whether a node has this key.
pub fn is_known(image: &[u8], k: u8) -> bool
    requires { Proper image.now }
    ensures { result ≡ known k (flat_in image.now) }
{
    1 <= k && usize::from(k) <= total(image)
}

pub fn body_at(image: &[u8], i: usize) -> Body
    requires { (Proper image.now) × (i < length (flat_in image.now).nodes) }
    ensures { IsBody (get_or (flat_in image.now).nodes i no_node) result }
{
    let n = node_at(image, i);
    Body {
        key: n.key,
        value: n.value,
        links: n.links,
    }
}

// Another value and other links for the node at i.
pub fn put_body(image: &mut [u8], i: usize, value: u32, links: Keys)
    requires { (Proper image.old) × (i < length (flat_in image.old).nodes) × (links ≡ packed (listed links)) }
    ensures { Shows (with_nodes (flat_in image.old) (set (flat_in image.old).nodes i (node_with (get_or (flat_in image.old).nodes i no_node) value (listed links)))) image.new }
{
    let n = node_at(image, i);
    put_node(
        image,
        i,
        NodeRecord {
            value,
            key: n.key,
            links,
            spare: 0,
        },
    );
}

// The node of an add, in front of the others.
pub fn append_body(image: &mut [u8], value: u32)
    requires { (Proper image.old) × (length (flat_in image.old).nodes < 64) }
    ensures { Shows (with_nodes (flat_in image.old) ((flat_in image.old).nodes ++ (new_node (length (flat_in image.old).nodes) value ∷ []))) image.new }
{
    let key = (node_count(image) + 1) as u8;
    append_node(
        image,
        NodeRecord {
            value,
            key,
            links: Keys::none(),
            spare: 0,
        },
    );
}
