//! Places between rows that are made by a rule, and how many rows stand before them: a plain count.

use crate::choice::{choice, value};
use sa_key::{CutRef, KeyRef, Side};
use std::cmp::Ordering;

/// The first so many values of a row in these columns, the last of them raised by this much.
#[derive(Clone, Copy)]
pub(crate) struct Place<'a> {
    pub(crate) parts: &'a [u32],
    pub(crate) row: u32,
    pub(crate) length: usize,
    pub(crate) raise: u32,
}

/// The choice of a place in the part with this number, which is this column.
fn choice_at(place: Place<'_>, number: usize, column: u32) -> u32 {
    let own = choice(column, place.row);
    if number.checked_add(1) == Some(place.length) {
        own.saturating_add(place.raise)
    } else {
        own
    }
}

/// The cut on this side of a place.
pub(crate) fn cut_at(place: Place<'_>, side: Side) -> CutRef<'static> {
    let mut tuple = KeyRef::new();
    for (number, column) in place.parts.iter().enumerate() {
        if number < place.length && tuple.len() < 4 {
            tuple.push(value(*column, choice_at(place, number, *column)));
        }
    }
    CutRef { tuple, side }
}

/// How the first values of a row stand to those of a place.
fn order_at(place: Place<'_>, row: u32) -> Ordering {
    for (number, column) in place.parts.iter().enumerate() {
        let order = choice(*column, row).cmp(&choice_at(place, number, *column));
        if number < place.length && order.is_ne() {
            return order;
        }
    }
    Ordering::Equal
}

/// How many of the first rows are less than a place, and how many are not greater.
pub(crate) fn counts_at(place: Place<'_>, rows: u32) -> (u32, u32) {
    let mut less = 0;
    let mut up_to = 0;
    for row in 0..rows {
        let order = order_at(place, row);
        less += u32::from(order.is_lt());
        up_to += u32::from(order.is_le());
    }
    (less, up_to)
}

/// Whether a row comes before the row of a place, one with equal values by its number.
fn comes_before(place: Place<'_>, row: u32) -> bool {
    order_at(place, row).then(row.cmp(&place.row)).is_lt()
}

/// How many of the first rows come before the row of a place.
pub(crate) fn position_of(place: Place<'_>, rows: u32) -> u32 {
    let mut before = 0;
    for row in 0..rows {
        before += u32::from(comes_before(place, row));
    }
    before
}

/// Whether no row before that of a place has equal values.
pub(crate) fn is_first(place: Place<'_>) -> bool {
    for row in 0..place.row {
        if order_at(place, row).is_eq() {
            return false;
        }
    }
    true
}
