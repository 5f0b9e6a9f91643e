ghost use Rattle.std.specs.Prelude.{◌≡◌, ◌≤◌, [], ◌∷◌, ◌++◌, All, IfOk, OnOk, length, map};
ghost use Rattle.sa_key.specs.Range.{canonical_range};
ghost use Rattle.sa_range.specs.RangeList.{joined, range_of as span_of, united as joined_all};
ghost use Rattle.sa_range.specs.inner.Joined.{put_last};

use crate::line::Pieces;
use crate::span::range_of;
use sa_key::{KeyRange, KeyRanges, order_cuts};
use sa_value::OutOfMemory;
use std::alloc::Global;

/// The ranges of sequences of pieces, of which neighbours that touch are united.
pub(crate) fn united(alloc: Global, walks: &[Pieces]) -> Result<KeyRanges, OutOfMemory>
    requires { All (λ walk. length walk ≤ 4) walks.now }
    ensures { IfOk result (λ ranges. ranges
        ≡ joined_all (map (λ walk. canonical_range (span_of [] walk)) walks.now)) }
{
    let mut ranges = Vec::new(alloc);
    for walk in walks {
        put_last(&mut ranges, range_of(alloc, walk.as_slice())?.canonical())?;
    }
    Ok(KeyRanges::from_vec(ranges))
}

/// Puts a range behind others. It is united with the last one where that ends at its start.
fn put_last(ranges: &mut Vec<KeyRange>, range: KeyRange) -> Result<(), OutOfMemory>
    ensures { OnOk result (ranges.new.items ≡ put_last ranges.old.items range) }
{
    match ranges.pop() {
        None => ranges.push(range)?,
        Some(last) => put_both(ranges, last, range)?,
    }
    Ok(())
}

/// Puts two neighbours behind others, as one where the first ends at the start of the second.
fn put_both(
    ranges: &mut Vec<KeyRange>,
    first: KeyRange,
    second: KeyRange,
) -> Result<(), OutOfMemory>
    ensures { OnOk result (ranges.new.items ≡ ranges.old.items ++ joined first (second ∷ [])) }
{
    if order_cuts(&first.to.view(), &second.from.view()).is_eq() {
        ranges.push(KeyRange {
            from: first.from,
            to: second.to,
        })?;
        return Ok(());
    }
    ranges.push(first)?;
    ranges.push(second)?;
    Ok(())
}
