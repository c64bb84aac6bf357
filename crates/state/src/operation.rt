// An operation of the queue by value, and the record that it has.
ghost use Rattle.std.specs.Prelude.{◌≡◌, true, false, ◌≤◌, eqb};
ghost use Rattle.graph.specs.OneAtATime.{add_of, op_of};
ghost use Rattle.valid.specs.Inner.Decoded.{act_of, held_of, remaining_of, decoded_call, tagged_of};
ghost use Rattle.valid.specs.Values.{fields, fields_of, written_keys, all_byte, mark_byte, tagged_record};
ghost use Rattle.state.specs.Inner.Operations.{op_value, fields_value, Normal, Carries, RecordFor};

use graph::act::Act;
use graph::affine::Affine;
use graph::keys::Keys;
use graph::remaining::Remaining;
use records::labels::Labels;
use records::op::OpRecord;

// A call that visits nodes: its act, what it holds, the targets that remain, and the labels that its result is for.
#[derive(Clone, Copy)]
pub struct Operation {
    pub act: Act,
    pub held: u32,
    pub targets: Remaining,
    pub labels: Labels,
}

// An add: its label, and the value of the node that it makes.
#[derive(Clone, Copy)]
pub struct Added {
    pub label: u16,
    pub value: u32,
}

// The part of a record that an act and what it holds fill. The kind is the image's byte.
#[derive(Clone, Copy)]
pub struct ActFields {
    pub kind: u8,
    pub key: u8,
    pub a: u32,
    pub b: u32,
}

pub fn act_of(kind: u8, key: u8, a: u32, b: u32) -> Act
    ensures { result ≡ act_of kind key a b }
{
    match kind {
        1 => Act::Map(Affine { a: a, b: b }),
        2 => Act::Link(key),
        3 => Act::Unlink(key),
        5 => Act::Top,
        6 => Act::Pick,
        7 => Act::Near(key),
        _ => Act::Sum,
    }
}

// A map's `b` is a number of its own; any other act holds it.
pub fn held_of(kind: u8, b: u32) -> u32
    ensures { result ≡ held_of kind b }
{
    if kind == 1 { 0 } else { b }
}

// The fields of an act other than a map.
fn with_key(kind: u8, key: u8, held: u32) -> ActFields
    ensures { fields_value result ≡ fields kind key 0 held }
{
    ActFields {
        kind,
        key,
        a: 0,
        b: held,
    }
}

pub fn fields_of(act: Act, held: u32) -> ActFields
    ensures { fields_value result ≡ fields_of act held }
{
    match act {
        Act::Map(m) => ActFields {
            kind: 1,
            key: 0,
            a: m.a,
            b: m.b,
        },
        Act::Link(k) => with_key(2, k, held),
        Act::Unlink(k) => with_key(3, k, held),
        Act::Sum => with_key(4, 0, held),
        Act::Top => with_key(5, 0, held),
        Act::Pick => with_key(6, 0, held),
        Act::Near(k) => with_key(7, k, held),
    }
}

// The targets that remain: all where the byte for it is 1, and done where the mark's is.
pub fn remaining_of(r: OpRecord) -> Remaining
    ensures { result ≡ remaining_of r }
{
    Remaining::from_fields(r.all == 1, r.mark == 1, r.targets)
}

// What is written of the targets that remain: the keys listed, and a byte each for all and for the mark.
fn written(targets: Remaining) -> (Keys, u8, u8)
    ensures { result ≡ (written_keys targets, all_byte targets, mark_byte targets) }
{
    match targets {
        Remaining::All { done } => (Keys::none(), 1, u8::from(done)),
        Remaining::Listed(keys) => (keys, 0, 0),
    }
}

// The operation of a clean record that is no add's.
pub fn operation_of(r: OpRecord) -> Operation
    requires { (eqb r.kind 0 ≡ false) × (tagged_record (tagged_of r) ≡ r) }
    ensures { Carries (decoded_call r) result }
{
    Operation {
        act: act_of(r.kind, r.key, r.a, r.b),
        held: held_of(r.kind, r.b),
        targets: remaining_of(r),
        labels: r.labels,
    }
}

// The record of an operation at a station; opens is 1 where it opens a unit, else 0.
pub fn record_of(station: u8, opens: u8, o: Operation) -> OpRecord
    requires { (opens ≤ 1) × (Normal o) }
    ensures { RecordFor (record { place = station; opens = eqb opens 1; call = op_of (op_value o) }) result }
{
    let f = fields_of(o.act, o.held);
    let (targets, all, mark) = written(o.targets);
    OpRecord {
        station,
        opens,
        kind: f.kind,
        key: f.key,
        a: f.a,
        b: f.b,
        targets,
        labels: o.labels,
        all,
        mark,
    }
}

// The record of an add, which waits in the top stream.
pub fn add_record(label: u16, value: u32) -> OpRecord
    ensures { RecordFor (record { place = 65; opens = true; call = add_of label value }) result }
{
    OpRecord {
        station: 65,
        opens: 1,
        kind: 0,
        key: 0,
        a: 0,
        b: value,
        targets: Keys::none(),
        labels: Labels {
            count: 1,
            label: [label, 0, 0, 0],
        },
        all: 0,
        mark: 0,
    }
}
