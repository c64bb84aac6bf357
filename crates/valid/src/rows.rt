// Tests of whole records, in place, and of every record of a region.
ghost use Rattle.std.specs.Prelude.{◌≡◌, ◌&&◌, ◌+◌, ◌<◌, leb, length};
ghost use Rattle.image.specs.Inner.Regions.{Sound, view};
ghost use Rattle.flat.specs.Inner.Queues.{placed, follows};
ghost use Rattle.records.specs.Inner.Decoded.{decode_node, decode_op, decode_result};
ghost use Rattle.valid.specs.Inner.Decoded.{tagged_of};
ghost use Rattle.valid.specs.Inner.Tests.{node_ok, op_ok, result_ok, nodes_ok, ops_ok, results_ok, adds_among};

use crate::fields::{
    all_ok, keys_ok, labels_ok, mark_ok, most_of, multiplier_ok, operand_ok, targets_ok,
};
use image::read::{kind_at, label_at, node_count, op_count, result_count, station_at};
use records::bytes::{u16_at, u32_at};

// The keys are compared as bytes: as places, the key that was read would become the next place, and each read would wait for the one before.
#[tactic(auto, unfolding(records::specs::Inner::Decoded::decode_node, crate::specs::Inner::Tests::node_ok))]
fn node_ok(i: usize, r: &[u8]) -> bool
    requires { (i < 64) × (length r.now ≡ 16) }
    ensures { result ≡ node_ok i (decode_node r.now) }
{
    r[4] == (i + 1) as u8 && u16_at(r, 14) == 0 && keys_ok(false, r, 5)
}

// Node keys rise from 1, and each node keeps the limits.
pub fn nodes_ok(image: &[u8]) -> bool
    requires { Sound image.now }
    ensures { result ≡ nodes_ok (view image.now).nodes }
{
    for i in 0..node_count(image) {
        let at = 16 + 16 * i;
        if !node_ok(i, &image[at..at + 16]) {
            return false;
        }
    }
    true
}

#[tactic(auto, unfolding(records::specs::Inner::Decoded::decode_op))]
fn place_ok(n: usize, r: &[u8]) -> bool
    requires { length r.now ≡ 32 }
    ensures { result ≡ placed n (tagged_of (decode_op r.now)) }
{
    let station = usize::from(r[0]);
    station == 65 || r[2] != 0 && 1 <= station && station <= n
}

#[tactic(auto, unfolding(records::specs::Inner::Decoded::decode_op))]
fn follows_ok(prev: u8, r: &[u8]) -> bool
    requires { length r.now ≡ 32 }
    ensures { result ≡ follows prev (tagged_of (decode_op r.now)) }
{
    let station = r[0];
    prev <= station && (r[1] == 1 || station == prev && station != 65)
}

#[tactic(auto, unfolding(records::specs::Inner::Decoded::decode_op, crate::specs::Inner::Tests::op_ok))]
fn op_ok(n: usize, prev: u8, r: &[u8]) -> bool
    requires { length r.now ≡ 32 }
    ensures { result ≡ op_ok n prev (decode_op r.now) }
{
    let kind = r[2];
    place_ok(n, r)
        && follows_ok(prev, r)
        && kind <= 7
        && operand_ok(kind, r[3])
        && multiplier_ok(kind, u32_at(r, 4))
        && targets_ok(kind, r[12])
        && keys_ok(true, r, 12)
        && labels_ok(most_of(kind), r, 21)
        && r[1] <= 1
        && all_ok(kind, r[12], r[30])
        && mark_ok(r[0], r[30], r[31])
}

// The queue stands in order, each operation keeps the limits, and the waiting adds have room.
pub fn ops_ok(image: &[u8]) -> bool
    requires { Sound image.now }
    ensures { result ≡ ops_ok (length (view image.now).nodes) (view image.now).ops && leb (length (view image.now).nodes + adds_among (view image.now).ops) 64 }
{
    let n = node_count(image);
    let mut prev: u8 = 0;
    let mut adds: usize = 0;
    for i in 0..op_count(image) {
        let at = 1040 + 32 * i;
        if !op_ok(n, prev, &image[at..at + 32]) {
            return false;
        }
        prev = station_at(image, i);
        if kind_at(image, i) == 0 {
            adds += 1;
        }
    }
    n + adds <= 64
}

#[tactic(auto, unfolding(records::specs::Inner::Decoded::decode_result, crate::specs::Inner::Tests::result_ok))]
fn result_ok(prev: u16, r: &[u8]) -> bool
    requires { length r.now ≡ 16 }
    ensures { result ≡ result_ok prev (decode_result r.now) }
{
    prev < u16_at(r, 0) && r[15] == 0 && keys_ok(true, r, 6)
}

// Results stand by rising label, and each keeps the limits.
pub fn results_ok(image: &[u8]) -> bool
    requires { Sound image.now }
    ensures { result ≡ results_ok (view image.now).results }
{
    let mut prev: u16 = 0;
    for i in 0..result_count(image) {
        let at = 3088 + 16 * i;
        if !result_ok(prev, &image[at..at + 16]) {
            return false;
        }
        prev = label_at(image, i);
    }
    true
}
