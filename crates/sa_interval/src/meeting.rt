ghost use Rattle.std.specs.Prelude.{◌≡◌, IfOk, OnOk, ◌&&◌};
ghost use Rattle.sa_interval.specs.Canonical.{AreCanonical, IsCanonicalRange, IsListOf, lies_in};
ghost use Rattle.sa_interval.specs.inner.Growing.{BeginBy, IsWith, common, earlier, later};

use crate::growing::put;
use sa_key::{Cut, KeyRange, KeyRanges, order_cuts, order_of_cuts_is_total};
use sa_value::OutOfMemory;
use std::alloc::Global;

/// The ranges that lie in both canonical lists. The list takes memory from `alloc`, and so do the
/// copies of texts in its cuts.
pub fn meet(alloc: Global, a: &KeyRanges, b: &KeyRanges) -> Result<KeyRanges, OutOfMemory>
    requires one { AreCanonical a.now }
    requires other { AreCanonical b.now }
    ensures { IfOk result (IsListOf (λ cut. lies_in a.now cut && lies_in b.now cut)) }
{
    order_of_cuts_is_total();
    let ranges = a.as_slice();
    let others = b.as_slice();
    let mut met = Vec::new(alloc);
    let (mut i, mut j) = (0, 0);
    while i < ranges.len() && j < others.len() {
        let range = &ranges[i];
        let other = &others[j];
        put_common(alloc, &mut met, range, other)?;
        if order_cuts(&other.to.view(), &range.to.view()).is_lt() {
            j += 1;
        } else {
            i += 1;
        }
    }
    Ok(KeyRanges::from_vec(met))
}

/// Puts what lies in both ranges to those of a canonical list, none of which begins behind it.
fn put_common(
    alloc: Global,
    list: &mut Vec<KeyRange>,
    a: &KeyRange,
    b: &KeyRange,
) -> Result<(), OutOfMemory>
    requires list { AreCanonical list.old.items }
    requires one { IsCanonicalRange a.now }
    requires other { IsCanonicalRange b.now }
    requires begin { BeginBy (later a.now.from b.now.from) list.old.items }
    ensures { OnOk result (IsWith list.old.items (common a.now b.now) list.new.items) }
{
    order_of_cuts_is_total();
    let from = later_of(&a.from, &b.from);
    let to = earlier_of(&a.to, &b.to);
    if order_cuts(&from.view(), &to.view()).is_lt() {
        let range = KeyRange {
            from: from.copy(alloc)?,
            to: to.copy(alloc)?,
        };
        put(list, range)?;
    }
    Ok(())
}

/// The later of two cuts.
fn later_of<'a>(a: &'a Cut, b: &'a Cut) -> &'a Cut
    ensures { result.now ≡ later a.now b.now }
{
    if order_cuts(&a.view(), &b.view()).is_lt() {
        b
    } else {
        a
    }
}

/// The earlier of two cuts.
fn earlier_of<'a>(a: &'a Cut, b: &'a Cut) -> &'a Cut
    ensures { result.now ≡ earlier a.now b.now }
{
    if order_cuts(&b.view(), &a.view()).is_lt() {
        b
    } else {
        a
    }
}
