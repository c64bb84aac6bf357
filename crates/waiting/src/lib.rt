// The pending labels and the waiting adds of the queue, counted and looked for.
#![tactic(auto)]

ghost use Rattle.std.specs.Prelude.{◌≡◌, ◌≤◌, ◌<◌, length, get_or};
ghost use Rattle.graph.specs.KeyLists.{contains};
ghost use Rattle.flat.specs.Inner.FlatSteps.{no_op};
ghost use Rattle.flat.specs.Inner.Queues.{labels_in, queued, adds_queued};
ghost use Rattle.valid.specs.Inner.Decoded.{labels_of};
ghost use Rattle.valid.specs.Values.{packed_labels};
ghost use Rattle.state.specs.Inner.Operations.{Bounded};
ghost use Rattle.state.specs.Inner.State.{flat_in, Proper};
ghost use Rattle.waiting.specs.Inner.Counted.{Names};

use image::read::op_at;
use records::labels::Labels;
use state::ops;

// The labels of the call at i. An add's record has its label where the others have theirs.
fn labels_at(image: &[u8], i: usize) -> Labels
    requires { (Proper image.now) × (i < length (flat_in image.now).queue) }
    ensures { Names (labels_in (get_or (flat_in image.now).queue i no_op).call) result }
{
    op_at(image, i).labels
}

// How many labels wait in the queue.
pub fn labels_waiting(image: &[u8]) -> usize
    requires { Proper image.now }
    ensures { Bounded (length (queued (flat_in image.now).queue)) 256 result }
{
    let mut labels = 0;
    for i in 0..ops::total(image) {
        labels += usize::from(labels_at(image, i).count);
    }
    labels
}

// How many adds wait in the queue.
pub fn adds_waiting(image: &[u8]) -> usize
    requires { Proper image.now }
    ensures { Bounded (adds_queued (flat_in image.now).queue) 64 result }
{
    (0..ops::total(image))
        .filter(|&i| ops::is_add_at(image, i))
        .count()
}

// Is the label listed? The list has zeros after its labels: all four places are compared at once, without an exit.
fn has(labels: Labels, label: u16) -> bool
    requires { (labels ≡ packed_labels (labels_of labels)) × (1 ≤ label) }
    ensures { result ≡ contains label (labels_of labels) }
{
    let [a, b, c, d] = labels.label;
    (label == a) | (label == b) | (label == c) | (label == d)
}

fn names(image: &[u8], i: usize, label: u16) -> bool
    requires { (Proper image.now) × (i < length (flat_in image.now).queue) × (1 ≤ label) }
    ensures { result ≡ contains label (labels_in (get_or (flat_in image.now).queue i no_op).call) }
{
    has(labels_at(image, i), label)
}

// Does the label wait in the queue?
pub fn is_queued(image: &[u8], label: u16) -> bool
    requires { (Proper image.now) × (1 ≤ label) }
    ensures { result ≡ contains label (queued (flat_in image.now).queue) }
{
    (0..ops::total(image)).any(|i| names(image, i, label))
}
