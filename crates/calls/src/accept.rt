// Acceptance of a call whose form is good: the tests on the session, then the next label and a place in the top stream.
ghost use Rattle.std.specs.Prelude.{◌≡◌, true, suc, ◌+◌, leb, length};
ghost use Rattle.graph.specs.Acts.{is_map};
ghost use Rattle.graph.specs.OneAtATime.{add_of, operation};
ghost use Rattle.graph.specs.Packed.{packed_targets};
ghost use Rattle.graph.specs.Targets.{untouched};
ghost use Rattle.graph.specs.RefusalOrder.{first_of};
ghost use Rattle.graph.specs.Refused.{number_in};
ghost use Rattle.flat.specs.Inner.Queues.{adds_queued, live_in};
ghost use Rattle.state.specs.Inner.Operations.{Bounded};
ghost use Rattle.state.specs.Inner.State.{flat_in, Proper};
ghost use Rattle.state.specs.Inner.ValidImage.{ValidImage, Works};
ghost use Rattle.calls.specs.Inner.Accepting.{named_in, flat_live_tests, flat_accept_rest};

use graph::act::Act;
use graph::refusal::Refusal;
use graph::remaining::Remaining;
use records::labels::Labels;
use state::operation::Operation;
use state::{nodes, ops, results};
use waiting::{adds_waiting, labels_waiting};

// How many calls are live: their labels wait in the queue or among the results.
pub fn live_total(image: &[u8]) -> usize
    requires { Proper image.now }
    ensures { Bounded (length (live_in (flat_in image.now))) 320 result }
{
    labels_waiting(image) + results::total(image)
}

// Nodes and waiting adds are 64 together.
fn adds_spent(image: &[u8]) -> bool
    requires { Proper image.now }
    ensures { result ≡ leb 64 (length (flat_in image.now).nodes + adds_queued (flat_in image.now).queue) }
{
    64 <= nodes::total(image) + adds_waiting(image)
}

// The tests of any call whose form is good.
fn test_room(image: &[u8]) -> Result<(), Refusal>
    requires { Proper image.now }
    ensures { number_in result ≡ first_of (flat_live_tests (flat_in image.now)) }
{
    if 64 <= live_total(image) {
        return Err(Refusal::TooManyLive);
    }
    if 65535 <= results::last(image) {
        return Err(Refusal::NoMoreLabels);
    }
    Ok(())
}

pub fn accept_add(image: &mut [u8], value: u32) -> Result<(), Refusal>
    requires { ValidImage image.old }
    ensures { Works (flat_accept_rest (add_of (suc (flat_in image.old).last) value) (flat_in image.old)) image.old image.new (number_in result) }
{
    if adds_spent(image) {
        return Err(Refusal::NoMoreAdds);
    }
    test_room(image)?;
    let label = results::last(image) + 1;
    ops::append_add(image, label, value);
    results::set_last(image, label);
    Ok(())
}

// A call that visits nodes: what it does, what it holds at first, and its targets as the line named them, so without a mark.
pub fn accept_operation(
    image: &mut [u8],
    act: Act,
    start: u32,
    targets: Remaining,
) -> Result<(), Refusal>
    requires { (ValidImage image.old) × (targets ≡ packed_targets (untouched (named_in targets))) × (is_map act ≡ true → start ≡ 0) }
    ensures { Works (flat_accept_rest (operation act start (named_in targets) (suc (flat_in image.old).last)) (flat_in image.old)) image.old image.new (number_in result) }
{
    test_room(image)?;
    let label = results::last(image) + 1;
    let labels = Labels {
        count: 1,
        label: [label, 0, 0, 0],
    };
    let o = Operation {
        act,
        held: start,
        targets,
        labels,
    };
    ops::append_operation(image, o);
    results::set_last(image, label);
    Ok(())
}
