// The results and the last label, in the image.
ghost use Rattle.std.specs.Prelude.{◌≡◌, ◌+◌, ◌<◌, ◌≤◌, length, get_or};
ghost use Rattle.flat.specs.Inner.Queues.{remove_at};
ghost use Rattle.graph.specs.Packed.{listed, packed};
ghost use Rattle.graph.specs.Nodes.{results_for};
ghost use Rattle.graph.specs.Sessions.{insert, store};
ghost use Rattle.valid.specs.Inner.Decoded.{labels_of};
ghost use Rattle.valid.specs.Values.{packed_labels};
ghost use Rattle.state.specs.Inner.Operations.{Bounded};
ghost use Rattle.state.specs.Inner.State.{flat_in, Proper, Shows, with_results, with_last};
ghost use Rattle.state.specs.Inner.Results.{IsCallResult, no_result, result_with, place_of};

use graph::keys::Keys;
use image::read::{last_label, result_at, result_count};
use image::write::{insert_result, remove_result, set_last as put_last};
use records::labels::Labels;
use records::result::ResultRecord;

// A result's label, its value, and the keys that it left unstruck.
#[derive(Clone, Copy)]
pub struct CallResult {
    pub label: u16,
    pub value: u32,
    pub left: Keys,
}

pub fn total(image: &[u8]) -> usize
    requires { Proper image.now }
    ensures { Bounded (length (flat_in image.now).results) 64 result }
{
    result_count(image)
}

pub fn last(image: &[u8]) -> u16
    requires { Proper image.now }
    ensures { result ≡ (flat_in image.now).last }
{
    last_label(image)
}

pub fn set_last(image: &mut [u8], label: u16)
    requires { Proper image.old }
    ensures { Shows (with_last (flat_in image.old) label) image.new }
{
    put_last(image, label);
}

pub fn call_result_at(image: &[u8], i: usize) -> CallResult
    requires { (Proper image.now) × (i < length (flat_in image.now).results) }
    ensures { IsCallResult (get_or (flat_in image.now).results i no_result) result }
{
    let r = result_at(image, i);
    CallResult {
        label: r.label,
        value: r.value,
        left: r.left,
    }
}

pub fn label_at(image: &[u8], i: usize) -> u16
    requires { (Proper image.now) × (i < length (flat_in image.now).results) }
    ensures { result ≡ (get_or (flat_in image.now).results i no_result).label }
{
    result_at(image, i).label
}

// Where a result with this label goes: the first place with a label above it, or the end.
pub fn place_of(image: &[u8], label: u16) -> usize
    requires { Proper image.now }
    ensures { result ≡ place_of label (flat_in image.now).results }
{
    let n = total(image);
    for i in 0..n {
        if label < label_at(image, i) {
            return i;
        }
    }
    n
}

// A result at its place by label.
pub fn store_one(image: &mut [u8], label: u16, value: u32, left: Keys)
    requires { (Proper image.old) × (length (flat_in image.old).results < 64) × (left ≡ packed (listed left)) }
    ensures { Shows (with_results (flat_in image.old) (insert (result_with label value (listed left)) (flat_in image.old).results)) image.new }
{
    let p = place_of(image, label);
    insert_result(
        image,
        p,
        ResultRecord {
            label,
            value,
            left,
            spare: 0,
        },
    );
}

// The results of a finished operation, one for each of its labels.
pub fn store_all(image: &mut [u8], labels: Labels, value: u32, left: Keys)
    requires { (Proper image.old) × (labels ≡ packed_labels (labels_of labels)) × (length (flat_in image.old).results + length (labels_of labels) ≤ 64) × (left ≡ packed (listed left)) }
    ensures { Shows (with_results (flat_in image.old) (store (results_for (labels_of labels) value (listed left)) (flat_in image.old).results)) image.new }
{
    let each = labels.label;
    for label in &each[..usize::from(labels.count)] {
        store_one(image, *label, value, left);
    }
}

// The result at i goes.
pub fn remove(image: &mut [u8], i: usize)
    requires { (Proper image.old) × (i < length (flat_in image.old).results) }
    ensures { Shows (with_results (flat_in image.old) (remove_at i (flat_in image.old).results)) image.new }
{
    remove_result(image, i);
}
