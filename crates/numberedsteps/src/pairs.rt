// Two neighbouring operations: may they change places, may they become one, and which.
ghost use Rattle.std.specs.Prelude.{◌≡◌, ◌++◌, ◌≤◌, length};
ghost use Rattle.graph.specs.OneAtATime.{op_of};
ghost use Rattle.graph.specs.Steps.{may_swap, may_fuse, fused};
ghost use Rattle.valid.specs.Inner.Decoded.{labels_of};
ghost use Rattle.valid.specs.Values.{packed_labels};
ghost use Rattle.state.specs.Inner.Operations.{op_value, Normal, Carries};

use graph::act;
use graph::act::Act;
use graph::affine::Affine;
use records::labels::Labels;
use state::operation::Operation;

pub fn may_swap(a: Operation, b: Operation) -> bool
    ensures { result ≡ may_swap (op_value a) (op_value b) }
{
    act::may_swap(a.act, a.targets, b.act, b.targets)
}

pub fn may_fuse(a: Operation, b: Operation) -> bool
    requires { (Normal a) × (Normal b) }
    ensures { result ≡ may_fuse (op_value a) (op_value b) }
{
    act::is_map(a.act)
        && act::is_map(b.act)
        && a.targets.same(b.targets)
        && u32::from(a.labels.count) + u32::from(b.labels.count) <= 4
}

// The labels of both, at most four.
fn appended(a: Labels, b: Labels) -> Labels
    requires { (a ≡ packed_labels (labels_of a)) × (b ≡ packed_labels (labels_of b)) × (length (labels_of a ++ labels_of b) ≤ 4) }
    ensures { result ≡ packed_labels (labels_of a ++ labels_of b) }
{
    let n = usize::from(a.count);
    let m = usize::from(b.count);
    let mut label = a.label;
    label[n..n + m].copy_from_slice(&b.label[..m]);
    Labels {
        count: a.count + b.count,
        label,
    }
}

// The map of a followed by that of b.
pub fn merge(a: Operation, b: Operation) -> Operation
    requires { (Normal a) × (Normal b) × (length (labels_of a.labels ++ labels_of b.labels) ≤ 4) }
    ensures { Carries (op_of (fused (op_value a) (op_value b))) result }
{
    let map = Affine::compose(act::affine_of(a.act), act::affine_of(b.act));
    Operation {
        act: Act::Map(map),
        held: 0,
        targets: a.targets,
        labels: appended(a.labels, b.labels),
    }
}
