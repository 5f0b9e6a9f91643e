//! A canonical list that grows by one range after another, in the order in which they begin.

ghost use Rattle.std.specs.Prelude.{◌≡◌, [], ◌∷◌, ◌++◌, OnOk};
ghost use Rattle.sa_key.specs.Range.{IsCanonicalCut};
ghost use Rattle.sa_interval.specs.Canonical.{AreCanonical, IsCanonicalRange};
ghost use Rattle.sa_interval.specs.inner.Growing.{BeginBy, IsWith, united};

use sa_key::{KeyRange, order_cuts, order_of_cuts_is_total};
use sa_value::OutOfMemory;

/// Puts a range to those of a canonical list, none of which begins behind it. It is united with the
/// last one where they overlap or touch, and dropped where it is empty.
pub fn put(list: &mut Vec<KeyRange>, range: KeyRange) -> Result<(), OutOfMemory>
    requires list { AreCanonical list.old.items }
    requires from { IsCanonicalCut range.from }
    requires to { IsCanonicalCut range.to }
    requires begin { BeginBy range.from list.old.items }
    ensures { OnOk result (IsWith list.old.items range list.new.items) }
{
    order_of_cuts_is_total();
    if order_cuts(&range.from.view(), &range.to.view()).is_ge() {
        return Ok(());
    }
    match list.pop() {
        None => list.push(range)?,
        Some(last) => put_behind(list, last, range)?,
    }
    Ok(())
}

/// Puts the last range and a next one, which isn't empty, to those of a canonical list: as one where
/// they overlap or touch, else one behind the other.
fn put_behind(list: &mut Vec<KeyRange>, last: KeyRange, next: KeyRange) -> Result<(), OutOfMemory>
    requires list { AreCanonical (list.old.items ++ last ∷ []) }
    requires next { IsCanonicalRange next }
    requires begin { BeginBy next.from (list.old.items ++ last ∷ []) }
    ensures { OnOk result (IsWith (list.old.items ++ last ∷ []) next list.new.items) }
{
    order_of_cuts_is_total();
    if order_cuts(&last.to.view(), &next.from.view()).is_ge() {
        list.push(joined(last, next))?;
        return Ok(());
    }
    list.push(last)?;
    list.push(next)?;
    Ok(())
}

/// All from the start of the first range to the later of their ends.
fn joined(first: KeyRange, second: KeyRange) -> KeyRange
    ensures { result ≡ united first second }
{
    if order_cuts(&first.to.view(), &second.to.view()).is_lt() {
        KeyRange {
            from: first.from,
            to: second.to,
        }
    } else {
        first
    }
}
