ghost use Rattle.std.specs.Prelude.{◌≡◌, ◌<◌, ◌≤◌, length, take};
ghost use Rattle.sa_key.specs.Cut.{cut_at};
ghost use Rattle.sa_key.specs.Order.{order_of_tuples, is_before};
ghost use Rattle.sa_key.specs.Range.{order_of_cuts, order_of_sides};

use crate::cut::{CutRef, Side};
use crate::key_ref::KeyRef;
use sa_value::{order_is_total, order_of};
use std::cmp::Ordering;

/// How two tuples of one length stand to each other: the first part in which they differ decides.
pub fn order_tuples(a: &KeyRef<'_>, b: &KeyRef<'_>) -> Ordering
    requires { length a.now ≡ length b.now }
    ensures { result ≡ order_of_tuples a.now b.now }
{
    order_front(a, b)
}

/// Whether a tuple lies before a cut, which is no longer than it.
pub fn before_cut(tuple: &KeyRef<'_>, cut: &CutRef<'_>) -> bool
    requires { length cut.now.tuple ≤ length tuple.now }
    ensures { result ≡ is_before tuple.now (cut_at cut.now) }
{
    match (order_front(tuple, &cut.tuple), cut.side) {
        (Ordering::Less, _) | (Ordering::Equal, Side::Above) => true,
        (Ordering::Equal, Side::Below) | (Ordering::Greater, _) => false,
    }
}

/// How two cuts stand to each other: the first part in which they differ decides. Where one is
/// shorter and there is none, the shorter comes first if it lies below, and last if it lies above.
pub fn order_cuts(a: &CutRef<'_>, b: &CutRef<'_>) -> Ordering
    ensures { result ≡ order_of_cuts (cut_at a.now) (cut_at b.now) }
{
    order_is_total();
    if a.tuple.len() < b.tuple.len() {
        order_longer(b, a).reverse()
    } else if b.tuple.len() < a.tuple.len() {
        order_longer(a, b)
    } else {
        order_front(&a.tuple, &b.tuple).then(order_sides(a.side, b.side))
    }
}

/// How a cut stands to another, which is shorter. Where it begins with the other's values, the other
/// comes first if it lies below.
fn order_longer(cut: &CutRef<'_>, shorter: &CutRef<'_>) -> Ordering
    requires { length shorter.now.tuple < length cut.now.tuple }
    ensures { result ≡ order_of_cuts (cut_at cut.now) (cut_at shorter.now) }
{
    let behind = match shorter.side {
        Side::Below => Ordering::Greater,
        Side::Above => Ordering::Less,
    };
    order_front(&cut.tuple, &shorter.tuple).then(behind)
}

/// How two cuts with equal tuples stand to each other.
fn order_sides(a: Side, b: Side) -> Ordering
    ensures { result ≡ order_of_sides a b }
{
    match (a, b) {
        (Side::Below, Side::Above) => Ordering::Less,
        (Side::Above, Side::Below) => Ordering::Greater,
        _ => Ordering::Equal,
    }
}

/// How the first values of a tuple stand to the values of another, which is no longer.
fn order_front(tuple: &KeyRef<'_>, other: &KeyRef<'_>) -> Ordering
    requires { length other.now ≤ length tuple.now }
    ensures { result ≡ order_of_tuples (take (length other.now) tuple.now) other.now }
{
    for index in 0..other.len() {
        let order = order_of(tuple.get(index), other.get(index));
        if order.is_ne() {
            return order;
        }
    }
    Ordering::Equal
}
