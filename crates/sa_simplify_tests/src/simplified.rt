//! What is left of a condition.

ghost use Rattle.std.specs.Prelude.{◌≡◌, true};
ghost use Rattle.sa_cond.specs.Typed.{is_well_typed};
ghost use Rattle.sa_sample.specs.Sample.{sample_kinds};

use crate::line::cell;
use sa_cond::Cond;
use sa_sample::{condition, is_typed};
use sa_simplify::simplify;
use sa_value::OutOfMemory;
use std::alloc::Global;
use std::process::Abort;

/// Each line of a table: name, condition, its simplified form as it stands.
pub(crate) fn each_becomes(rt: &impl Abort, alloc: Global, table: &str) {
    for line in table.split('\n') {
        becomes(rt, alloc, line, cell(line, 1), cell(line, 2));
    }
}

/// Each line of a table: name, a condition that is simplified already.
pub(crate) fn each_stays(rt: &impl Abort, alloc: Global, table: &str) {
    for line in table.split('\n') {
        becomes(rt, alloc, line, cell(line, 1), cell(line, 1));
    }
}

/// Each line of a table: name, condition, equalities.
///
/// They are put behind the condition, and nothing else changes.
pub(crate) fn each_hands_on(
    rt: &impl Abort,
    alloc: Global,
    table: &str,
) -> Result<(), OutOfMemory> {
    for line in table.split('\n') {
        let wanted = joined(alloc, cell(line, 1), cell(line, 2))?;
        becomes(rt, alloc, line, cell(line, 1), wanted.as_str());
    }
    Ok(())
}

fn joined(alloc: Global, sql: &str, added: &str) -> Result<String, OutOfMemory> {
    Ok(format!(in alloc; "{sql} AND {added}")?)
}

/// The simplified form of a line's condition is the other condition as it stands.
fn becomes(rt: &impl Abort, alloc: Global, line: &str, sql: &str, wanted: &str) {
    let found = simplified(alloc, sql);
    let wanted = plain(alloc, wanted);
    assert!(rt; wanted.is_some(), "{line}: no expected form");
    assert_eq!(rt; found, wanted, "{line}");
}

/// The tree of the simplified condition, as it is printed.
fn simplified(alloc: Global, sql: &str) -> Option<String> {
    let cond = condition(alloc, sql)?;
    if is_typed(&cond) {
        printed(alloc, cond)
    } else {
        None
    }
}

/// The tree of the simplified form of a well-typed condition, as it is printed.
fn printed(alloc: Global, cond: Cond) -> Option<String>
    requires typed { is_well_typed sample_kinds cond ≡ true }
{
    let simple = simplify(alloc, cond).ok()?;
    format!(in alloc; "{simple:?}").ok()
}

/// The tree of the condition as it stands, as it is printed.
fn plain(alloc: Global, sql: &str) -> Option<String> {
    let cond = condition(alloc, sql)?;
    format!(in alloc; "{cond:?}").ok()
}
