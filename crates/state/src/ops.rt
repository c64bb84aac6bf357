// The queue of the flat session that an image holds, read and written in place.
ghost use Rattle.std.specs.Prelude.{◌≡◌, true, false, not, [], ◌∷◌, ◌++◌, ◌<◌, length, get_or, set};
ghost use Rattle.graph.specs.Targets.{these};
ghost use Rattle.graph.specs.Acts.{is_fold};
ghost use Rattle.graph.specs.OneAtATime.{add_of, op_of, is_op};
ghost use Rattle.flat.specs.Inner.Nested.{of_op, at_place};
ghost use Rattle.flat.specs.Inner.Queues.{first_index, breaks, end_of, remove_at};
ghost use Rattle.flat.specs.Inner.FlatSteps.{alter, no_op, move_to, move_on, open_as, with_op, with_queue};
ghost use Rattle.valid.specs.Inner.Decoded.{tagged_of};
ghost use Rattle.valid.specs.Values.{tagged_record};
ghost use Rattle.state.specs.Inner.Operations.{op_value, add_value, Normal, Carries, TargetsHeld, RecordFor, Bounded};
ghost use Rattle.state.specs.Inner.State.{flat_in, Proper, Shows};

use crate::operation::{Added, Operation, add_record, operation_of, record_of, remaining_of};
use graph::remaining::Remaining;
use image::read::{op_at, op_count};
use image::write::{append_op, put_op, remove_op};
use records::op::OpRecord;

pub fn total(image: &[u8]) -> usize
    requires { Proper image.now }
    ensures { Bounded (length (flat_in image.now).queue) 64 result }
{
    op_count(image)
}

fn record_at(image: &[u8], i: usize) -> OpRecord
    requires { (Proper image.now) × (i < length (flat_in image.now).queue) }
    ensures { RecordFor (get_or (flat_in image.now).queue i no_op) result }
{
    op_at(image, i)
}

pub fn place_at(image: &[u8], i: usize) -> u8
    requires { (Proper image.now) × (i < length (flat_in image.now).queue) }
    ensures { result ≡ (get_or (flat_in image.now).queue i no_op).place }
{
    record_at(image, i).station
}

pub fn opens_at(image: &[u8], i: usize) -> bool
    requires { (Proper image.now) × (i < length (flat_in image.now).queue) }
    ensures { result ≡ (get_or (flat_in image.now).queue i no_op).opens }
{
    record_at(image, i).opens == 1
}

pub fn is_add_at(image: &[u8], i: usize) -> bool
    requires { (Proper image.now) × (i < length (flat_in image.now).queue) }
    ensures { result ≡ not (is_op (get_or (flat_in image.now).queue i no_op).call) }
{
    record_at(image, i).kind == 0
}

// Kinds 4 to 7 are folds.
pub fn is_fold_at(image: &[u8], i: usize) -> bool
    requires { (Proper image.now) × (i < length (flat_in image.now).queue) }
    ensures { result ≡ of_op false (λ o. is_fold o.act) (get_or (flat_in image.now).queue i no_op).call }
{
    3 < record_at(image, i).kind
}

// The targets that remain; an add has none.
pub fn targets_at(image: &[u8], i: usize) -> Remaining
    requires { (Proper image.now) × (i < length (flat_in image.now).queue) }
    ensures { TargetsHeld (of_op (these []) (λ o. o.targets) (get_or (flat_in image.now).queue i no_op).call) result }
{
    remaining_of(record_at(image, i))
}

pub fn operation_at(image: &[u8], i: usize) -> Operation
    requires { (Proper image.now) × (i < length (flat_in image.now).queue) × (is_op (get_or (flat_in image.now).queue i no_op).call ≡ true) }
    ensures { Carries (get_or (flat_in image.now).queue i no_op).call result }
{
    operation_of(record_at(image, i))
}

pub fn add_at(image: &[u8], i: usize) -> Added
    requires { (Proper image.now) × (i < length (flat_in image.now).queue) × (is_op (get_or (flat_in image.now).queue i no_op).call ≡ false) }
    ensures { (get_or (flat_in image.now).queue i no_op).call ≡ add_value result }
{
    let r = record_at(image, i);
    Added {
        label: r.labels.label[0],
        value: r.b,
    }
}

// The first operation of station k, or the queue's end.
pub fn first_at(image: &[u8], k: u8) -> usize
    requires { Proper image.now }
    ensures { result ≡ first_index (at_place k) (flat_in image.now).queue }
{
    let n = total(image);
    for i in 0..n {
        if place_at(image, i) == k {
            return i;
        }
    }
    n
}

// The operation at i does not go on with a unit of station k.
fn breaks_at(image: &[u8], k: u8, i: usize) -> bool
    requires { (Proper image.now) × (i < length (flat_in image.now).queue) }
    ensures { result ≡ breaks k (get_or (flat_in image.now).queue i no_op) }
{
    place_at(image, i) != k || opens_at(image, i)
}

// Where the unit of station k that starts at p ends.
pub fn unit_end(image: &[u8], k: u8, p: usize) -> usize
    requires { (Proper image.now) × (p < length (flat_in image.now).queue) }
    ensures { Bounded (end_of k p (flat_in image.now).queue) (length (flat_in image.now).queue) result }
{
    let n = total(image);
    for i in p + 1..n {
        if breaks_at(image, k, i) {
            return i;
        }
    }
    n
}

fn put_record(image: &mut [u8], i: usize, r: OpRecord)
    requires { (Proper image.old) × (i < length (flat_in image.old).queue) × (tagged_record (tagged_of r) ≡ r) }
    ensures { Shows (with_queue (flat_in image.old) (set (flat_in image.old).queue i (tagged_of r))) image.new }
{
    put_op(image, i, r);
}

// One field of a record changes in each of the next three: a function over a closure would need a law for each, and be no shorter.
pub fn set_place(image: &mut [u8], i: usize, k: u8)
    requires { (Proper image.old) × (i < length (flat_in image.old).queue) }
    ensures { Shows (with_queue (flat_in image.old) (alter i (move_to k) (flat_in image.old).queue)) image.new }
{
    let r = record_at(image, i);
    put_record(image, i, OpRecord { station: k, ..r });
}

// To station k as a move takes it: an all-call goes on without its mark.
pub fn move_op(image: &mut [u8], i: usize, k: u8)
    requires { (Proper image.old) × (i < length (flat_in image.old).queue) }
    ensures { Shows (with_queue (flat_in image.old) (alter i (move_on k) (flat_in image.old).queue)) image.new }
{
    let r = record_at(image, i);
    put_record(
        image,
        i,
        OpRecord {
            station: k,
            mark: 0,
            ..r
        },
    );
}

pub fn set_opens(image: &mut [u8], i: usize, b: bool)
    requires { (Proper image.old) × (i < length (flat_in image.old).queue) }
    ensures { Shows (with_queue (flat_in image.old) (alter i (open_as b) (flat_in image.old).queue)) image.new }
{
    let r = record_at(image, i);
    put_record(
        image,
        i,
        OpRecord {
            opens: u8::from(b),
            ..r
        },
    );
}

// The operation at i becomes o, in its place of its unit.
pub fn put_operation(image: &mut [u8], i: usize, o: Operation)
    requires { (Proper image.old) × (i < length (flat_in image.old).queue) × (Normal o) }
    ensures { Shows (with_queue (flat_in image.old) (set (flat_in image.old).queue i (with_op (get_or (flat_in image.old).queue i no_op) (op_value o)))) image.new }
{
    let old = record_at(image, i);
    put_record(image, i, record_of(old.station, old.opens, o));
}

pub fn exchange(image: &mut [u8], i: usize, j: usize)
    requires { (Proper image.old) × (i < length (flat_in image.old).queue) × (j < length (flat_in image.old).queue) }
    ensures { Shows (with_queue (flat_in image.old) (set (set (flat_in image.old).queue i (get_or (flat_in image.old).queue j no_op)) j (get_or (flat_in image.old).queue i no_op))) image.new }
{
    let x = record_at(image, i);
    let y = record_at(image, j);
    put_record(image, i, y);
    put_record(image, j, x);
}

pub fn remove(image: &mut [u8], i: usize)
    requires { (Proper image.old) × (i < length (flat_in image.old).queue) }
    ensures { Shows (with_queue (flat_in image.old) (remove_at i (flat_in image.old).queue)) image.new }
{
    remove_op(image, i);
}

fn append_record(image: &mut [u8], r: OpRecord)
    requires { (Proper image.old) × (length (flat_in image.old).queue < 64) × (tagged_record (tagged_of r) ≡ r) }
    ensures { Shows (with_queue (flat_in image.old) ((flat_in image.old).queue ++ (tagged_of r ∷ []))) image.new }
{
    append_op(image, r);
}

// An add at the end of the top stream.
pub fn append_add(image: &mut [u8], label: u16, value: u32)
    requires { (Proper image.old) × (length (flat_in image.old).queue < 64) }
    ensures { Shows (with_queue (flat_in image.old) ((flat_in image.old).queue ++ (record { place = 65; opens = true; call = add_of label value } ∷ []))) image.new }
{
    append_record(image, add_record(label, value));
}

// An operation at the end of the top stream.
pub fn append_operation(image: &mut [u8], o: Operation)
    requires { (Proper image.old) × (length (flat_in image.old).queue < 64) × (Normal o) }
    ensures { Shows (with_queue (flat_in image.old) ((flat_in image.old).queue ++ (record { place = 65; opens = true; call = op_of (op_value o) } ∷ []))) image.new }
{
    append_record(image, record_of(65, 1, o));
}
