//! The order of offers, and the first of all that are made.

ghost use Rattle.std.specs.Prelude.{◌≡◌, ◌+◌, length, map};
ghost use Rattle.sa_range.specs.RangeList.{range_list};
ghost use Rattle.sa_table.specs.Table.{table_at};
ghost use Rattle.sa_plan.specs.declared.access.AccessKind.TheVariants as kinds;
ghost use Rattle.sa_access.specs.Asked.{asked_table};
ghost use Rattle.sa_access.specs.Least.{rank_of};
ghost use Rattle.sa_access.specs.Offered.{key_at};
ghost use Rattle.sa_access.specs.inner.Asking.{IsKeyThere, IsThere, asked_at};
ghost use Rattle.sa_access.specs.inner.Offer.{IsLeastBelow, lesser_of, order_of_offers};

use crate::asking::{Asking, key_count};
use crate::offer::{Offer, all_offer, index_offer, range_offer, sought_offer};
use sa_index::{Index, Shelf};
use sa_interval::RangeList;
use sa_plan::AccessKind;
use std::cmp::Ordering;

/// The first of all offers that are made.
pub(crate) fn least_offer<I: Index>(
    asking: &Asking<'_>,
    shelf: &Shelf<I>,
    lists: &[RangeList],
) -> Offer
    requires there { IsThere (asked_at asking.now) }
    requires shelf { shelf.now ≡ asking.now.tables.now }
    requires lists { lists.now ≡ map
        (λ key. range_list asking.now.query.now.filter asking.now.position key.parts)
        (table_at asking.now.tables.now (asked_table (asked_at asking.now))).def.keys }
    ensures { IsLeastBelow (asked_at asking.now)
        (length (table_at asking.now.tables.now (asked_table (asked_at asking.now))).def.keys)
        result }
{
    let mut kept = all_offer(asking);
    for key in 0..key_count(asking) {
        kept = least_with_key(asking, shelf, &lists[key as usize], key, kept);
    }
    kept
}

/// The first of an offer and those by a key.
fn least_with_key<I: Index>(
    asking: &Asking<'_>,
    shelf: &Shelf<I>,
    list: &RangeList,
    key: u32,
    kept: Offer,
) -> Offer
    requires there { IsKeyThere (asked_at asking.now) key }
    requires shelf { shelf.now ≡ asking.now.tables.now }
    requires list { list.now ≡ range_list asking.now.query.now.filter asking.now.position
        (key_at (asked_at asking.now) key).parts }
    requires kept { IsLeastBelow (asked_at asking.now) key kept }
    ensures { IsLeastBelow (asked_at asking.now) (key + 1) result }
{
    let indexed = lesser(kept, index_offer(asking, key));
    let ranged = lesser(indexed, range_offer(asking, shelf, list, key));
    lesser(ranged, sought_offer(asking, shelf, key))
}

/// The first of an offer and perhaps another.
fn lesser(kept: Offer, other: Option<Offer>) -> Offer
    ensures { result ≡ lesser_of kept other }
{
    match other {
        None => kept,
        Some(other) => {
            if order_offers(other, kept).is_lt() {
                other
            } else {
                kept
            }
        }
    }
}

/// How two offers stand: by their costs, then by their estimates, then by their keys, then by their
/// kinds.
fn order_offers(one: Offer, other: Offer) -> Ordering
    ensures { result ≡ order_of_offers one other }
{
    one.cost
        .cmp(&other.cost)
        .then(one.estimate.cmp(&other.estimate))
        .then(one.key.cmp(&other.key))
        .then(rank_of(one.kind).cmp(&rank_of(other.kind)))
}

/// The place of a kind among those of equal offers.
fn rank_of(kind: AccessKind) -> u8
    ensures { result ≡ rank_of kind }
{
    match kind {
        AccessKind::Const => 0,
        AccessKind::EqRef => 1,
        AccessKind::Ref => 2,
        AccessKind::Range => 3,
        AccessKind::Index => 4,
        AccessKind::All => 5,
    }
}
