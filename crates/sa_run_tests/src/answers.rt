//! The rows of a script's SELECTs.

use sa_desk::{Entries, Event, Journals, Outcome};
use sa_value::{Row, Rows, order_of};
use std::cmp::Ordering;

/// Whether each SELECT that ended with rows in both runs has the same in both, and where one has ended
/// without, it was killed.
pub(crate) fn are_same(left: &Journals, right: &Journals) -> bool {
    if left.len() != right.len() {
        return false;
    }
    for (left, right) in left.as_slice().iter().zip(right.as_slice().iter()) {
        if !ends_agree(left, right) {
            return false;
        }
    }
    true
}

/// Whether the statements of one session end alike.
fn ends_agree(left: &Entries, right: &Entries) -> bool {
    for entry in left.as_slice() {
        if let Event::End {
            statement,
            outcome,
            ..
        } = &entry.event
        {
            if !ends_like(*statement, outcome, right) {
                return false;
            }
        }
    }
    true
}

/// Whether the statement of this number ends with the same rows in another journal, where both end with
/// rows, and where one alone does the other was killed.
fn ends_like(number: u32, outcome: &Outcome, journal: &Entries) -> bool {
    for entry in journal.as_slice() {
        if let Event::End {
            statement,
            outcome: other,
            ..
        } = &entry.event
        {
            if *statement == number && !outcomes_agree(outcome, other) {
                return false;
            }
        }
    }
    true
}

fn outcomes_agree(left: &Outcome, right: &Outcome) -> bool {
    match (left, right) {
        (Outcome::Rows { rows: left, .. }, Outcome::Rows { rows: right, .. }) => {
            rows_are_same(left, right)
        }
        (Outcome::Rows { .. }, other) | (other, Outcome::Rows { .. }) => {
            matches!(other, Outcome::Interrupted)
        }
        _ => true,
    }
}

fn rows_are_same(left: &Rows, right: &Rows) -> bool {
    if left.len() != right.len() {
        return false;
    }
    for (left, right) in left.as_slice().iter().zip(right.as_slice().iter()) {
        if !cells_are_same(left, right) {
            return false;
        }
    }
    true
}

fn cells_are_same(left: &Row, right: &Row) -> bool {
    if left.len() != right.len() {
        return false;
    }
    for (left, right) in left.as_slice().iter().zip(right.as_slice().iter()) {
        if order_of(left.view(), right.view()) != Ordering::Equal {
            return false;
        }
    }
    true
}
