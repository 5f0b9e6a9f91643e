//! Rows that are made by a rule.
//!
//! A cell has a choice, a number: 0 is NULL, and greater choices are greater values. Rows have even
//! choices, so that odd ones lie between their values.

use crate::value::held;
use sa_value::{OutOfMemory, Row, ValueRef};
use std::alloc::Global;

/// The columns: a number that occurs often, a text, a number that occurs once or is NULL, and one
/// of four numbers.
pub(crate) const COLUMNS: &str = "INT, VARCHAR, BIGINT, INT";

/// The texts of the choices from 1 on, rising.
const TEXTS: &str = ",0,A,B,Z,Za,a,a ,aa,ab,b,ba,c,z,zz,ä,€";

/// The choice of a cell.
pub(crate) fn choice(column: u32, row: u32) -> u32 {
    match column {
        0 => row % 10 * 7 % 10 * 2,
        1 => row % 9 * 2,
        2 => single(row),
        _ => row % 4 * 2,
    }
}

/// The choice of a column whose values occur once: NULL in each tenth row. 389 and 1009 have no
/// divisor in common, so it differs from row to row up to row 1008.
fn single(row: u32) -> u32 {
    if row % 10 == 3 {
        0
    } else {
        (row % 1009 * 389) % 1009 * 2 + 2
    }
}

/// The value of a choice.
pub(crate) fn value(column: u32, choice: u32) -> ValueRef<'static> {
    if choice == 0 {
        return ValueRef::Null;
    }
    match column {
        0 => ValueRef::Int(i64::from(choice) - 9),
        1 => ValueRef::Text(text(choice)),
        2 => ValueRef::Int((i64::from(choice) - 1010).saturating_mul(9_000_000_000_000_000)),
        _ => ValueRef::Int(i64::from(choice)),
    }
}

fn text(choice: u32) -> &'static str {
    TEXTS
        .split(',')
        .nth(choice.saturating_sub(1) as usize)
        .unwrap_or("")
}

/// The row with this number.
pub(crate) fn row(alloc: Global, number: u32) -> Result<Row, OutOfMemory> {
    let mut values = Vec::new(alloc);
    for column in 0..4 {
        values.push(held(alloc, value(column, choice(column, number)))?)?;
    }
    Ok(Row::from_vec(values))
}
