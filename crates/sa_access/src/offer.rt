//! The accesses that are offered to a table, each reckoned.

ghost use Rattle.std.specs.Prelude.{◌≡◌, ◌≢◌, ◌↔◌, ◌<◌, [], ◌∷◌, All, IsTrue, length, true, if◌then◌else◌};
ghost use Rattle.std.specs.List.{list_all};
ghost use Rattle.sa_cost.specs.Cost.{cost_of_ref};
ghost use Rattle.sa_table.specs.Sound.{column_at};
ghost use Rattle.sa_range.specs.RangeList.{range_list};
ghost use Rattle.sa_plan.specs.declared.access.AccessKind.TheVariants as kinds;
ghost use Rattle.sa_access.specs.Offered.{all_tuples, covers, finds_one, key_at};
ghost use Rattle.sa_access.specs.Sought.{sought_of};
ghost use Rattle.sa_access.specs.inner.Asking.{IsKeyThere, IsThere, asked_at};
ghost use Rattle.sa_access.specs.inner.Found.{IsTallyOf};
ghost use Rattle.sa_access.specs.inner.Offer.{MakesOffer, indexed_at, offer_of, sought_kind};

use crate::asking::{Asking, asked_def, asked_table, key_at, row_count};
use crate::counting::{rows_in, rows_of_value};
use crate::covering::{KeyColumns, covers};
use crate::sought::{Tally, tallied};
use sa_cost::{index_cost, range_cost, ref_cost, scan_cost};
use sa_index::{Index, Shelf, entries_are_the_rows_in_order};
use sa_interval::RangeList;
use sa_key::{KeyRange, Side};
use sa_plan::AccessKind;
use sa_range::ranges_are_canonical;
use sa_table::TableDef;

/// An access by its kind and its key, and what it is reckoned to cost and to give each time. The key
/// of ALL is 0.
#[derive(Clone, Copy, Debug)]
pub(crate) struct Offer {
    pub(crate) kind: AccessKind,
    pub(crate) key: u32,
    pub(crate) cost: u128,
    pub(crate) estimate: u64,
}

/// The offer of ALL.
#[tactic(auto, unfolding(crate::specs::inner::Offer::offer_of))]
pub(crate) fn all_offer(asking: &Asking<'_>) -> Offer
    requires { IsThere (asked_at asking.now) }
    ensures { result ≡ offer_of (asked_at asking.now) kinds.All 0 }
{
    let rows = u64::from(row_count(asking));
    Offer {
        kind: AccessKind::All,
        key: 0,
        cost: scan_cost(rows),
        estimate: rows,
    }
}

/// The offer of an index alone, where it holds all that the query names of the table.
#[tactic(auto, unfolding(crate::specs::inner::Offer::offer_of))]
pub(crate) fn index_offer(asking: &Asking<'_>, key: u32) -> Option<Offer>
    requires { IsKeyThere (asked_at asking.now) key }
    ensures { MakesOffer (covers (asked_at asking.now) key ≡ true)
        (offer_of (asked_at asking.now) kinds.Index key) result }
{
    let columns = KeyColumns {
        position: asking.position,
        parts: key_at(asking, key).parts.as_slice(),
    };
    if !covers(&columns, asking.query) {
        return None;
    }
    let rows = u64::from(row_count(asking));
    Some(Offer {
        kind: AccessKind::Index,
        key,
        cost: index_cost(rows),
        estimate: rows,
    })
}

/// The offer of the ranges of a key, where they are less than all tuples.
#[tactic(auto, unfolding(crate::specs::inner::Offer::offer_of))]
pub(crate) fn range_offer<I: Index>(
    asking: &Asking<'_>,
    shelf: &Shelf<I>,
    list: &RangeList,
    key: u32,
) -> Option<Offer>
    requires there { IsKeyThere (asked_at asking.now) key }
    requires shelf { shelf.now ≡ asking.now.tables.now }
    requires list { list.now ≡ range_list asking.now.query.now.filter asking.now.position
        (key_at (asked_at asking.now) key).parts }
    ensures { MakesOffer (list.now.ranges ≢ all_tuples ∷ [])
        (offer_of (asked_at asking.now) kinds.Range key) result }
{
    ranges_are_canonical();
    entries_are_the_rows_in_order();
    let _sound = asking.tables.len();
    let ranges = list.ranges.as_slice();
    if are_all_tuples(ranges) {
        return None;
    }
    let rows = rows_in(asking.tables, index_of(asking, shelf, key), ranges);
    Some(Offer {
        kind: AccessKind::Range,
        key,
        cost: range_cost(ranges.len() as u64, rows),
        estimate: rows,
    })
}

/// The index of a key of the table.
fn index_of<'a, I: Index>(asking: &Asking<'_>, shelf: &'a Shelf<I>, key: u32) -> &'a I
    requires there { IsKeyThere (asked_at asking.now) key }
    requires shelf { shelf.now ≡ asking.now.tables.now }
    ensures { I.indexed result.now ≡ indexed_at (asked_at asking.now) key }
{
    shelf.index(asked_table(asking), key)
}

/// Whether these are the range of all tuples alone.
fn are_all_tuples(ranges: &[KeyRange]) -> bool
    ensures { IsTrue result ↔ (ranges.now ≡ all_tuples ∷ []) }
{
    match ranges {
        [KeyRange { from, to }] => {
            from.tuple.is_empty()
                && from.side == Side::Below
                && to.tuple.is_empty()
                && to.side == Side::Above
        }
        _ => false,
    }
}

/// The offer by equalities of a key's first parts, where there are some.
pub(crate) fn sought_offer<I: Index>(
    asking: &Asking<'_>,
    shelf: &Shelf<I>,
    key: u32,
) -> Option<Offer>
    requires there { IsKeyThere (asked_at asking.now) key }
    requires shelf { shelf.now ≡ asking.now.tables.now }
    ensures { MakesOffer (sought_of (asked_at asking.now) key ≢ [])
        (offer_of (asked_at asking.now) (sought_kind (asked_at asking.now) key) key) result }
{
    let tally = tallied(asking, key_at(asking, key).parts.as_slice());
    if tally.count == 0 {
        return None;
    }
    if finds_one(asking, key, tally) {
        return Some(row_offer(key, tally));
    }
    Some(ref_offer(asking, shelf, key, tally))
}

/// The offer of const or eq_ref.
fn row_offer(key: u32, tally: Tally) -> Offer
    ensures { result ≡ record {
      kind = if tally.literal then kinds.Const else kinds.EqRef;
      key = key;
      cost = cost_of_ref 1;
      estimate = 1;
    } }
{
    let kind = if tally.literal {
        AccessKind::Const
    } else {
        AccessKind::EqRef
    };
    Offer {
        kind,
        key,
        cost: ref_cost(1),
        estimate: 1,
    }
}

/// The offer of ref.
#[tactic(auto, unfolding(crate::specs::inner::Offer::offer_of))]
fn ref_offer<I: Index>(asking: &Asking<'_>, shelf: &Shelf<I>, key: u32, tally: Tally) -> Offer
    requires there { IsKeyThere (asked_at asking.now) key }
    requires shelf { shelf.now ≡ asking.now.tables.now }
    requires tally { IsTallyOf (sought_of (asked_at asking.now) key) tally }
    ensures { result ≡ offer_of (asked_at asking.now) kinds.Ref key }
{
    let estimate = rows_of_value(index_of(asking, shelf, key), tally.count);
    Offer {
        kind: AccessKind::Ref,
        key,
        cost: ref_cost(estimate),
        estimate,
    }
}

/// Whether no two rows can be found by what the parts of a key are sought by.
fn finds_one(asking: &Asking<'_>, key: u32, tally: Tally) -> bool
    requires there { IsKeyThere (asked_at asking.now) key }
    requires tally { IsTallyOf (sought_of (asked_at asking.now) key) tally }
    ensures { result ≡ finds_one (asked_at asking.now) key }
{
    let def = key_at(asking, key);
    (def.unique || def.primary)
        && has_no_null(asked_def(asking), def.parts.as_slice())
        && tally.count as usize == def.parts.len()
}

/// Whether these columns are NOT NULL.
fn has_no_null(table: &TableDef, columns: &[u32]) -> bool
    requires { All (λ number. number < length table.now.columns) columns.now }
    ensures { result ≡ list_all (λ number. (column_at table.now number).not_null) columns.now }
{
    columns.iter().all(|number| is_not_null(table, *number))
}

/// Whether a column is NOT NULL.
fn is_not_null(table: &TableDef, number: u32) -> bool
    requires { number < length table.now.columns }
    ensures { result ≡ (column_at table.now number).not_null }
{
    table.columns.as_slice()[number as usize].not_null
}
