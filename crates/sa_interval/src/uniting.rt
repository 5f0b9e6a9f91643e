ghost use Rattle.std.specs.Prelude.{◌≡◌, ◌<◌, IfOk, IsTrue, ◌||◌, drop, false, length};
ghost use Rattle.sa_interval.specs.Canonical.{AreCanonical, IsListOf, lies_in};
ghost use Rattle.sa_interval.specs.inner.Growing.{is_first};

use crate::growing::put;
use sa_key::{KeyRange, KeyRanges, order_cuts, order_of_cuts_is_total};
use sa_value::OutOfMemory;
use std::alloc::Global;

/// The ranges that lie in either canonical list. The list takes memory from `alloc`, and so do the
/// copies of texts in its cuts.
pub fn unite(alloc: Global, a: &KeyRanges, b: &KeyRanges) -> Result<KeyRanges, OutOfMemory>
    requires one { AreCanonical a.now }
    requires other { AreCanonical b.now }
    ensures { IfOk result (IsListOf (λ cut. lies_in a.now cut || lies_in b.now cut)) }
{
    order_of_cuts_is_total();
    let ranges = a.as_slice();
    let others = b.as_slice();
    let mut united = Vec::new(alloc);
    let (mut i, mut j) = (0, 0);
    while i < ranges.len() || j < others.len() {
        if begins_first(ranges, i, others, j) {
            put(&mut united, ranges[i].copy(alloc)?)?;
            i += 1;
        } else {
            put(&mut united, others[j].copy(alloc)?)?;
            j += 1;
        }
    }
    Ok(KeyRanges::from_vec(united))
}

/// Whether a list has a range at its index, and the other at its own has none that begins before it.
fn begins_first(a: &[KeyRange], i: usize, b: &[KeyRange], j: usize) -> bool
    ensures first { result ≡ is_first (drop i a.now) (drop j b.now) }
    ensures one { IsTrue result → i < length a.now }
    ensures other { result ≡ false → i < length a.now → j < length b.now }
{
    if i < a.len() {
        if j < b.len() {
            return order_cuts(&a[i].from.view(), &b[j].from.view()).is_le();
        }
        return true;
    }
    false
}
