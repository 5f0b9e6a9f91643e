//! What a condition leaves of a key.

ghost use Rattle.std.specs.Prelude.{◌≡◌, true};
ghost use Rattle.sa_cond.specs.Typed.{is_well_typed};
ghost use Rattle.sa_sample.specs.Sample.{sample_kinds};

use crate::key::{columns, table_of};
use crate::line::cell;
use crate::written::written;
use sa_cond::Cond;
use sa_range::ranges;
use sa_sample::{condition, is_typed};
use sa_simplify::simplify;
use std::alloc::Global;
use std::process::Abort;

/// Each line of a table: name, key, condition, what its simplified form leaves of the key.
pub(crate) fn each_leaves(rt: &impl Abort, alloc: Global, table: &str) {
    for line in table.split('\n') {
        leaves(rt, alloc, line, cell(line, 1), cell(line, 2), cell(line, 3));
    }
}

/// The simplified form of a condition leaves this of a key.
pub(crate) fn leaves(
    rt: &impl Abort,
    alloc: Global,
    name: &str,
    key: &str,
    sql: &str,
    expected: &str,
) {
    match simplified(alloc, sql) {
        None => assert!(rt; false, "{name}: no condition"),
        Some(filter) => leaves_of(rt, alloc, name, key, &filter, expected),
    }
}

/// A condition, as it stands, leaves this of a key.
pub(crate) fn leaves_of(
    rt: &impl Abort,
    alloc: Global,
    name: &str,
    key: &str,
    filter: &Cond,
    expected: &str,
) {
    match left(alloc, key, filter) {
        None => assert!(rt; false, "{name}: no ranges"),
        Some(text) => assert_eq!(rt; text.as_str(), expected, "{name}"),
    }
}

/// The ranges that a condition leaves of a key of at most four columns, as a text.
fn left(alloc: Global, key: &str, filter: &Cond) -> Option<String> {
    let parts = columns(alloc, key).ok()?;
    if parts.len() > 4 {
        return None;
    }
    let list = ranges(alloc, filter, table_of(key), parts.as_slice()).ok()?;
    written(alloc, &list).ok()
}

/// The simplified form of a condition.
pub(crate) fn simplified(alloc: Global, sql: &str) -> Option<Cond> {
    let cond = condition(alloc, sql)?;
    if is_typed(&cond) {
        simple(alloc, cond)
    } else {
        None
    }
}

/// The simplified form of a well-typed condition.
fn simple(alloc: Global, cond: Cond) -> Option<Cond>
    requires typed { is_well_typed sample_kinds cond ≡ true }
{
    simplify(alloc, cond).ok()
}
