// Counts and records, read in place.
ghost use Rattle.std.specs.Prelude.{◌≡◌, ◌+◌, ◌*◌, ◌<◌, ◌≤◌, length, get_or};
ghost use Rattle.records.specs.Inner.Numbers.{chunk};
ghost use Rattle.image.specs.Inner.Regions.{Sound, view, node_region, op_region, result_region, blank};

use crate::region::{NODES, OPS, RESULTS, Region};
use records::bytes::u16_at;
use records::labels::{Labels, labels_at};
use records::node::{NodeRecord, read_node};
use records::op::{OpRecord, read_op};
use records::result::{ResultRecord, read_result};

// A function for each kind of record here and in write.rt: each contract names another field of the view, and what they do is one function.
#[tactic(auto, using(crate::proofs::Regions::count_of))]
pub fn node_count(image: &[u8]) -> usize
    requires { Sound image.now }
    ensures { result ≡ length (view image.now).nodes }
{
    usize::from(image[1])
}

#[tactic(auto, using(crate::proofs::Regions::count_of))]
pub fn op_count(image: &[u8]) -> usize
    requires { Sound image.now }
    ensures { result ≡ length (view image.now).ops }
{
    usize::from(image[2])
}

#[tactic(auto, using(crate::proofs::Regions::count_of))]
pub fn result_count(image: &[u8]) -> usize
    requires { Sound image.now }
    ensures { result ≡ length (view image.now).results }
{
    usize::from(image[3])
}

pub fn last_label(image: &[u8]) -> u16
    requires { Sound image.now }
    ensures { result ≡ (view image.now).last }
{
    u16_at(image, 4)
}

// The bytes of the record at i.
#[tactic(auto, unfolding(records::specs::Inner::Numbers::chunk))]
pub(crate) fn record_bytes(image: &[u8], region: Region, i: usize) -> &[u8]
    requires { region.base + region.size * i + region.size ≤ length image.now }
    ensures bytes { result.now ≡ chunk image.now (region.base + region.size * i) region.size }
    ensures size { length result.now ≡ region.size }
{
    let from = region.base + region.size * i;
    &image[from..from + region.size]
}

pub fn node_at(image: &[u8], i: usize) -> NodeRecord
    requires { (Sound image.now) × (i < length (view image.now).nodes) }
    ensures { result ≡ get_or (view image.now).nodes i (blank node_region) }
{
    read_node(record_bytes(image, NODES, i))
}

pub fn op_at(image: &[u8], i: usize) -> OpRecord
    requires { (Sound image.now) × (i < length (view image.now).ops) }
    ensures { result ≡ get_or (view image.now).ops i (blank op_region) }
{
    read_op(record_bytes(image, OPS, i))
}

// Single fields of an operation's record, for loops over the queue.
#[tactic(auto, using(crate::proofs::Bytewise::station_of))]
pub fn station_at(image: &[u8], i: usize) -> u8
    requires { (Sound image.now) × (i < length (view image.now).ops) }
    ensures { result ≡ (get_or (view image.now).ops i (blank op_region)).station }
{
    image[1040 + 32 * i]
}

#[tactic(auto, using(crate::proofs::Bytewise::opens_of))]
pub fn opens_at(image: &[u8], i: usize) -> u8
    requires { (Sound image.now) × (i < length (view image.now).ops) }
    ensures { result ≡ (get_or (view image.now).ops i (blank op_region)).opens }
{
    image[1041 + 32 * i]
}

#[tactic(auto, using(crate::proofs::Bytewise::kind_of_law))]
pub fn kind_at(image: &[u8], i: usize) -> u8
    requires { (Sound image.now) × (i < length (view image.now).ops) }
    ensures { result ≡ (get_or (view image.now).ops i (blank op_region)).kind }
{
    image[1042 + 32 * i]
}

#[tactic(auto, using(crate::proofs::Bytewise::labels_of_law))]
pub fn op_labels(image: &[u8], i: usize) -> Labels
    requires { (Sound image.now) × (i < length (view image.now).ops) }
    ensures { result ≡ (get_or (view image.now).ops i (blank op_region)).labels }
{
    labels_at(image, 1061 + 32 * i)
}

#[tactic(auto, using(crate::proofs::Bytewise::label_of))]
pub fn label_at(image: &[u8], i: usize) -> u16
    requires { (Sound image.now) × (i < length (view image.now).results) }
    ensures { result ≡ (get_or (view image.now).results i (blank result_region)).label }
{
    u16_at(image, 3088 + 16 * i)
}

pub fn result_at(image: &[u8], i: usize) -> ResultRecord
    requires { (Sound image.now) × (i < length (view image.now).results) }
    ensures { result ≡ get_or (view image.now).results i (blank result_region) }
{
    read_result(record_bytes(image, RESULTS, i))
}
