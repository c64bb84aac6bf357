// Records written in place.
ghost use Rattle.std.specs.Prelude.{[], ◌∷◌, ◌++◌, ◌≡◌, ◌+◌, ◌*◌, ◌<◌, ◌≤◌, length, get_or, set};
ghost use Rattle.flat.specs.Inner.Queues.{remove_at};
ghost use Rattle.text.specs.Text.{pasted};
ghost use Rattle.image.specs.Inner.Moves.{Removed};
ghost use Rattle.image.specs.Inner.Regions.{Sound, view, ViewWritten, view_with_nodes, view_with_ops, view_with_results, view_with_last, insert_at};

use crate::read::result_count;
use crate::region::{NODES, OPS, RESULTS, Region};
use crate::shift::{clear, move_down, move_up};
use records::node::{NodeRecord, node_bytes};
use records::op::{OpRecord, op_bytes};
use records::result::{ResultRecord, result_bytes};
use text::put::put_bytes;

// The bytes of the record at i become these.
fn put(image: &mut [u8], region: Region, i: usize, bytes: &[u8])
    requires { region.base + region.size * i + length bytes.now ≤ length image.old }
    ensures { image.new ≡ pasted image.old (region.base + region.size * i) bytes.now }
{
    put_bytes(image, region.base + region.size * i, bytes);
}

// A record after the others.
fn append(image: &mut [u8], region: Region, bytes: &[u8])
    requires { (region.counter < length image.old) × (get_or image.old region.counter 0 < 64) × (region.base + region.size * get_or image.old region.counter 0 + length bytes.now ≤ length image.old) }
    ensures { image.new ≡ set (pasted image.old (region.base + region.size * get_or image.old region.counter 0) bytes.now) region.counter (get_or image.old region.counter 0 + 1) }
{
    let m = image[region.counter];
    put(image, region, usize::from(m), bytes);
    image[region.counter] = m + 1;
}

// The record at p goes; those after it stand one place earlier.
fn remove(image: &mut [u8], region: Region, p: usize)
    requires { (region.counter < length image.old) × (p < get_or image.old region.counter 0) × (region.base + region.size * get_or image.old region.counter 0 ≤ length image.old) }
    ensures { Removed region.counter region.base region.size p image.old image.new }
{
    let m = image[region.counter];
    let end = region.base + region.size * usize::from(m);
    move_down(image, region.base + region.size * p, end, region.size);
    clear(image, end - region.size, end);
    image[region.counter] = m - 1;
}

pub fn put_node(image: &mut [u8], i: usize, n: NodeRecord)
    requires { (Sound image.old) × (i < length (view image.old).nodes) }
    ensures { ViewWritten (view_with_nodes (view image.old) (set (view image.old).nodes i n)) image.old image.new }
{
    put(image, NODES, i, &node_bytes(n));
}

pub fn put_op(image: &mut [u8], i: usize, o: OpRecord)
    requires { (Sound image.old) × (i < length (view image.old).ops) }
    ensures { ViewWritten (view_with_ops (view image.old) (set (view image.old).ops i o)) image.old image.new }
{
    put(image, OPS, i, &op_bytes(o));
}

// The node of a new station, in front of the others.
pub fn append_node(image: &mut [u8], n: NodeRecord)
    requires { (Sound image.old) × (length (view image.old).nodes < 64) }
    ensures { ViewWritten (view_with_nodes (view image.old) ((view image.old).nodes ++ (n ∷ []))) image.old image.new }
{
    append(image, NODES, &node_bytes(n));
}

// An operation at the queue's end.
pub fn append_op(image: &mut [u8], o: OpRecord)
    requires { (Sound image.old) × (length (view image.old).ops < 64) }
    ensures { ViewWritten (view_with_ops (view image.old) ((view image.old).ops ++ (o ∷ []))) image.old image.new }
{
    append(image, OPS, &op_bytes(o));
}

// A result at place p; those from p on stand one place later.
pub fn insert_result(image: &mut [u8], p: usize, r: ResultRecord)
    requires { (Sound image.old) × (p ≤ length (view image.old).results) × (length (view image.old).results < 64) }
    ensures { ViewWritten (view_with_results (view image.old) (insert_at p r (view image.old).results)) image.old image.new }
{
    let m = result_count(image);
    let at = RESULTS.base + RESULTS.size * p;
    let end = RESULTS.base + RESULTS.size * m;
    move_up(image, at, end, RESULTS.size);
    put(image, RESULTS, p, &result_bytes(r));
    image[RESULTS.counter] = (m + 1) as u8;
}

// The operation at p goes; those after it stand one place earlier.
pub fn remove_op(image: &mut [u8], p: usize)
    requires { (Sound image.old) × (p < length (view image.old).ops) }
    ensures { ViewWritten (view_with_ops (view image.old) (remove_at p (view image.old).ops)) image.old image.new }
{
    remove(image, OPS, p);
}

// The result at p goes; those after it stand one place earlier.
pub fn remove_result(image: &mut [u8], p: usize)
    requires { (Sound image.old) × (p < length (view image.old).results) }
    ensures { ViewWritten (view_with_results (view image.old) (remove_at p (view image.old).results)) image.old image.new }
{
    remove(image, RESULTS, p);
}

pub fn set_last(image: &mut [u8], label: u16)
    requires { Sound image.old }
    ensures { ViewWritten (view_with_last (view image.old) label) image.old image.new }
{
    put_bytes(image, 4, &label.to_le_bytes());
}
