// Steps on a station's head unit: realise, move, finish.
#![tactic(auto)]

ghost use Rattle.std.specs.Prelude.{◌≡◌, true, ◌-◌, ◌≤◌, ◌<◌, length, get_or};
ghost use Rattle.graph.specs.Nodes.{act_by};
ghost use Rattle.graph.specs.OneAtATime.{op_of, is_op};
ghost use Rattle.graph.specs.Refused.{number_in};
ghost use Rattle.graph.specs.Steps.{realise, move, finish};
ghost use Rattle.flat.specs.Inner.FlatSteps.{no_op, no_node, move_on, map_from, first_in, with_queue, rule_at, sought_at, act_at, take_out, finish_place, known, flat_step, hand_on};
ghost use Rattle.state.specs.Inner.Operations.{op_value, Normal, Carries, Bounded};
ghost use Rattle.state.specs.Inner.State.{flat_in, Proper, Shows};
ghost use Rattle.state.specs.Inner.ValidImage.{ValidImage, Works};
ghost use Rattle.units.specs.Inner.Numbered.{spotted};
ghost use Rattle.headsteps.specs.Inner.Heads.{body_value, NoAdds, locate_first};

use graph::act;
use graph::refusal::Refusal;
use graph::task::{Sought, TaskRule, rule_of};
use state::nodes::Body;
use state::operation::Operation;
use state::{nodes, ops, results};
use units::{UnitPlace, unit_at};

// The first task rule that holds for the operation at i, at the station with key k.
fn rule_at(image: &[u8], k: u8, i: usize) -> TaskRule
    requires { (Proper image.now) × (i < length (flat_in image.now).queue) × (is_op (get_or (flat_in image.now).queue i no_op).call ≡ true) }
    ensures { result ≡ rule_at k (get_or (flat_in image.now).queue i no_op) }
{
    let is_fold = ops::is_fold_at(image, i);
    let targets = ops::targets_at(image, i);
    rule_of(is_fold, targets, k, k == 1)
}

// The first operation from h up to e that a step looks for, by its task rule at the station with key k; e where there is none. It is
// inlined, since what is sought is known where it is called.
#[inline(always)]
pub fn first_for(image: &[u8], sought: Sought, k: u8, h: usize, e: usize) -> usize
    requires { (Proper image.now) × (h ≤ e) × (e ≤ length (flat_in image.now).queue) × (NoAdds h e (flat_in image.now).queue) }
    ensures { Bounded (first_in (sought_at sought k) h e (flat_in image.now).queue) e result }
{
    for i in h..e {
        let rule = rule_at(image, k, i);
        if sought.includes(rule) {
            return i;
        }
    }
    e
}

// The operation after it acted at a node: the node's key is struck, an all-call is marked.
fn acted(o: Operation, n: Body) -> Operation
    requires { Normal o }
    ensures { Carries (op_of (act_by (op_value o) (body_value n))) result }
{
    Operation {
        act: o.act,
        held: act::held_after(o.act, o.held, n.value, n.links),
        targets: o.targets.struck(n.key),
        labels: o.labels,
    }
}

// The operation at p acts at the node with key k, and strikes that node's key or is marked.
pub fn act_at(image: &mut [u8], k: u8, p: usize)
    requires { (Proper image.old) × (known k (flat_in image.old) ≡ true) × (p < length (flat_in image.old).queue) × (is_op (get_or (flat_in image.old).queue p no_op).call ≡ true) }
    ensures { Shows (act_at k p (get_or (flat_in image.old).queue p no_op) (get_or (flat_in image.old).nodes (k - 1) no_node) (flat_in image.old)) image.new }
{
    let i = usize::from(k - 1);
    let o = ops::operation_at(image, p);
    let n = nodes::body_at(image, i);
    let value = act::value_after(o.act, n.value);
    let links = act::links_after(o.act, n.links);
    let after = acted(o, n);
    nodes::put_body(image, i, value, links);
    ops::put_operation(image, p, after);
}

// The unit from h up to e goes to the next station's tail: in the queue only its place changes, and marks are cleared.
pub fn move_unit(image: &mut [u8], k: u8, h: usize, e: usize)
    requires { (Proper image.old) × (1 ≤ k) × (h ≤ e) × (e ≤ length (flat_in image.old).queue) }
    ensures { Shows (with_queue (flat_in image.old) (map_from (move_on (k - 1)) h e (flat_in image.old).queue)) image.new }
{
    for i in h..e {
        ops::move_op(image, i, k - 1);
    }
}

// Where the operation at p opens its unit, which ends at e, the next of the unit is to open it.
fn hand_on(image: &mut [u8], p: usize, e: usize)
    requires { (Proper image.old) × (p < e) × (e ≤ length (flat_in image.old).queue) }
    ensures { Shows (with_queue (flat_in image.old) (hand_on p e (get_or (flat_in image.old).queue p no_op) (flat_in image.old).queue)) image.new }
{
    let next = p + 1;
    if next < e {
        let opens = ops::opens_at(image, p);
        ops::set_opens(image, next, opens);
    }
}

// The operation at p, of a unit that ends at e, leaves the queue.
fn take_out(image: &mut [u8], p: usize, e: usize)
    requires { (Proper image.old) × (p < e) × (e ≤ length (flat_in image.old).queue) }
    ensures { Shows (with_queue (flat_in image.old) (take_out p e (get_or (flat_in image.old).queue p no_op) (flat_in image.old).queue)) image.new }
{
    hand_on(image, p, e);
    ops::remove(image, p);
}

// The operation at p, of a unit that ends at e, leaves the queue and stores its results.
pub fn finish_at(image: &mut [u8], p: usize, e: usize)
    requires { (ValidImage image.old) × (p < e) × (e ≤ length (flat_in image.old).queue) × (is_op (get_or (flat_in image.old).queue p no_op).call ≡ true) }
    ensures { Shows (finish_place p e (get_or (flat_in image.old).queue p no_op) (flat_in image.old)) image.new }
{
    let o = ops::operation_at(image, p);
    take_out(image, p, e);
    let value = act::result_value(o.act, o.held);
    results::store_all(image, o.labels, value, o.targets.left());
}

// In the head unit, the first operation that a step looks for: its place, and where the unit ends.
fn first_in_head(image: &[u8], sought: Sought, k: u8) -> Result<UnitPlace, Refusal>
    requires { ValidImage image.now }
    ensures { locate_first sought k (flat_in image.now) ≡ spotted result }
{
    let head = unit_at(image, k, 1)?;
    let p = first_for(image, sought, k, head.start, head.end);
    if p == head.end {
        return Err(Refusal::NotAllowed);
    }
    Ok(UnitPlace {
        start: p,
        end: head.end,
    })
}

// In the head unit, the first operation that targets the node acts and strikes its key or is marked.
pub fn realise(image: &mut [u8], k: u8) -> Result<(), Refusal>
    requires { ValidImage image.old }
    ensures { Works (flat_step (realise k) (flat_in image.old)) image.old image.new (number_in result) }
{
    let place = first_in_head(image, Sought::Acts, k)?;
    act_at(image, k, place.start);
    Ok(())
}

// In the head unit, the first operation that may finish stores its results and goes.
pub fn finish(image: &mut [u8], k: u8) -> Result<(), Refusal>
    requires { ValidImage image.old }
    ensures { Works (flat_step (finish k) (flat_in image.old)) image.old image.new (number_in result) }
{
    let place = first_in_head(image, Sought::Finishes, k)?;
    finish_at(image, place.start, place.end);
    Ok(())
}

// The head unit goes to the next station's tail, where no operation in it targets the node and the station isn't last.
pub fn move_on(image: &mut [u8], k: u8) -> Result<(), Refusal>
    requires { ValidImage image.old }
    ensures { Works (flat_step (move k) (flat_in image.old)) image.old image.new (number_in result) }
{
    let head = unit_at(image, k, 1)?;
    if k == 1 {
        return Err(Refusal::NotAllowed);
    }
    if first_for(image, Sought::Acts, k, head.start, head.end) < head.end {
        return Err(Refusal::NotAllowed);
    }
    move_unit(image, k, head.start, head.end);
    Ok(())
}
