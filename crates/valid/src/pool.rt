// The live labels, gathered: each was given, and stands in one place.
ghost use Rattle.std.specs.Prelude.{◌≡◌, ◌&&◌, ◌+◌, ◌≤◌, leb, length, take, drop};
ghost use Rattle.graph.specs.KeyLists.{contains};
ghost use Rattle.image.specs.Inner.Regions.{Sound, view};
ghost use Rattle.valid.specs.Inner.Decoded.{labels_of};
ghost use Rattle.valid.specs.Inner.Tests.{op_labels, result_labels, live_labels, given_once, Gathers, Padded};

use image::read::{label_at, last_label, op_count, op_labels, result_count};
use records::labels::Labels;

// Puts the labels into the pool from `at` on, and says where the next goes. All four places are written, since four are one store; what
// comes next goes over those that do not count.
fn push_labels(pool: &mut [u16], at: usize, l: Labels) -> usize
    requires { at + 4 ≤ length pool.old }
    ensures { (Gathers (labels_of l) at pool.old pool.new result) × (result ≤ at + 4) }
{
    pool[at..at + 4].copy_from_slice(&l.label);
    at + usize::from(l.count).min(4)
}

// The labels of the operations, from the pool's start on.
fn gather_ops(image: &[u8], pool: &mut [u16]) -> usize
    requires { (Sound image.now) × (256 ≤ length pool.old) }
    ensures { (Gathers (op_labels (view image.now).ops) 0 pool.old pool.new result) × (result ≤ 256) }
{
    let mut at: usize = 0;
    for i in 0..op_count(image) {
        at = push_labels(pool, at, op_labels(image, i));
    }
    at
}

// The labels of the results, from `at` on.
fn gather_results(image: &[u8], pool: &mut [u16], at: usize) -> usize
    requires { (Sound image.now) × (at + 64 ≤ length pool.old) }
    ensures { (Gathers (result_labels (view image.now).results) at pool.old pool.new result) × (result ≤ at + 64) }
{
    let m = result_count(image);
    for i in 0..m {
        pool[at + i] = label_at(image, i);
    }
    at + m
}

// Whether x is among the 64 labels from `at` on. Their number is fixed, and the loop has no exit on the way, so that many are compared at
// once.
fn is_among(s: &[u16], at: usize, x: u16) -> bool
    requires { at + 64 ≤ length s.now }
    ensures { result ≡ contains x (take 64 (drop at s.now)) }
{
    let mut found = false;
    for y in &s[at..at + 64] {
        found |= *y == x;
    }
    found
}

// Each of the first n labels is from 1 to `last`, and stands once among them. They are looked at from the last one on, and `seen` notes
// their lower bytes: only where a label's is noted is it searched, so labels less than 256 apart are never compared.
fn given_once(s: &[u16], n: usize, last: u16) -> bool
    requires { Padded n s.now }
    ensures { result ≡ given_once last (take n s.now) }
{
    let mut seen = [false; 256];
    for i in (0..n).rev() {
        let x = s[i];
        let low = usize::from(x % 256);
        if x < 1 || last < x || seen[low] && is_among(s, i + 1, x) {
            return false;
        }
        seen[low] = true;
    }
    true
}

// At most 64 calls are live, and their labels were given and stand once.
pub fn labels_live(image: &[u8]) -> bool
    requires { Sound image.now }
    ensures { result ≡ leb (length (live_labels (view image.now))) 64 && given_once (view image.now).last (live_labels (view image.now)) }
{
    let mut pool = [0u16; 320];
    let a = gather_ops(image, &mut pool);
    let n = gather_results(image, &mut pool, a);
    if 64 < n {
        return false;
    }
    pool[n..n + 64].fill(0);
    given_once(&pool, n, last_label(image))
}
