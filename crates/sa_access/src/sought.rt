//! By which equalities of a query's filter the parts of a key are sought.

ghost use Rattle.std.specs.Prelude.{◌≡◌, ◌+◌, ◌≤◌, ◌&&◌, IfOk, length, option_map};
ghost use Rattle.sa_cond.specs.declared.cond.Cond.{out-Cond};
ghost use Rattle.sa_cond.specs.declared.expr.Expr.{out-Expr};
ghost use Rattle.sa_simplify.specs.Flatten.{conjuncts_of};
ghost use Rattle.sa_access.specs.Sought.{equal_to, first_sought, is_column, is_literal, seeks_by, sought_in, sought_parts};
ghost use Rattle.sa_access.specs.inner.Asking.{asked_at};
ghost use Rattle.sa_access.specs.inner.Found.{IsTallyOf, part_at};

use crate::asking::Asking;
use sa_cond::{Cond, Expr};
use sa_plan::{RefPart, RefParts};
use sa_value::{CompareOp, OutOfMemory, Value};
use std::alloc::Global;
use std::slice;

/// What a part of a key is sought by.
#[derive(Clone, Copy)]
pub(crate) enum Found<'a> {
    Literal(&'a Value),
    /// A column of a table before.
    Column { table: u32, column: u32 },
}

/// How many of a key's first parts are sought, and whether all of them by literals.
#[derive(Clone, Copy)]
pub(crate) struct Tally {
    pub(crate) count: u32,
    pub(crate) literal: bool,
}

/// What these columns are sought by, from the first on, as long as each is. Texts are copies.
pub(crate) fn sought_parts(
    alloc: Global,
    asking: &Asking<'_>,
    columns: &[u32],
) -> Result<RefParts, OutOfMemory>
    ensures { IfOk result (λ parts. parts ≡ sought_parts (asked_at asking.now) columns.now) }
{
    let mut parts = RefParts::new(alloc);
    for column in columns {
        match first_sought(asking, *column) {
            None => return Ok(parts),
            Some(found) => parts.push(part_of(alloc, found)?)?,
        }
    }
    Ok(parts)
}

/// How many of these columns are sought, from the first on.
pub(crate) fn tallied(asking: &Asking<'_>, columns: &[u32]) -> Tally
    requires { length columns.now ≤ 4 }
    ensures tally { IsTallyOf (sought_parts (asked_at asking.now) columns.now) result }
    ensures few { result.count ≤ length columns.now }
{
    let mut tally = Tally {
        count: 0,
        literal: true,
    };
    for column in columns {
        match first_sought(asking, *column) {
            None => return tally,
            Some(found) => tally = with_found(tally, found),
        }
    }
    tally
}

/// A tally with one part more.
fn with_found(tally: Tally, found: Found<'_>) -> Tally
    requires { tally.count ≤ 4 }
    ensures count { result.count ≡ tally.count + 1 }
    ensures literal { result.literal ≡ (tally.literal && is_literal (part_at found.entry)) }
{
    Tally {
        count: tally.count + 1,
        literal: tally.literal && matches!(found, Found::Literal(_)),
    }
}

/// The part of an access that is sought by what was found. A text is a copy.
fn part_of(alloc: Global, found: Found<'_>) -> Result<RefPart, OutOfMemory>
    ensures { IfOk result (λ part. part ≡ part_at found.entry) }
{
    match found {
        Found::Literal(value) => Ok(RefPart::Literal(value.copy(alloc)?)),
        Found::Column { table, column } => Ok(RefPart::Column { table, column }),
    }
}

/// What the first condition of the filter that seeks a column says.
fn first_sought<'a>(asking: &Asking<'a>, column: u32) -> Option<Found<'a>>
    ensures { option_map part_at result ≡ first_sought asking.now.earlier.now asking.now.position
        column (conjuncts_of asking.now.query.now.filter) }
{
    for cond in conjuncts_of(&asking.query.filter) {
        if let Some(found) = sought_in(asking, column, cond) {
            return Some(found);
        }
    }
    None
}

/// The conditions whose AND a condition is.
fn conjuncts_of(cond: &Cond) -> &[Cond]
    ensures { result.now ≡ conjuncts_of cond.now }
{
    match cond {
        Cond::And(members) => members.as_slice(),
        _ => slice::from_ref(cond),
    }
}

/// What a condition seeks a column by, if it is an equality of it.
fn sought_in<'a>(asking: &Asking<'_>, column: u32, cond: &'a Cond) -> Option<Found<'a>>
    ensures { option_map part_at result ≡ sought_in asking.now.earlier.now asking.now.position
        column (out-Cond cond.now) }
{
    match cond {
        Cond::Compare {
            op: CompareOp::Eq,
            left,
            right,
        } => equal_to(asking, column, left, right),
        _ => None,
    }
}

/// What a column is sought by where these two are equal.
fn equal_to<'a>(
    asking: &Asking<'_>,
    column: u32,
    left: &'a Expr,
    right: &'a Expr,
) -> Option<Found<'a>>
    ensures { option_map part_at result ≡ equal_to asking.now.earlier.now asking.now.position
        column (out-Expr left.now) (out-Expr right.now) }
{
    if is_column(asking.position, column, left) {
        seeks_by(asking.earlier, right)
    } else if is_column(asking.position, column, right) {
        seeks_by(asking.earlier, left)
    } else {
        None
    }
}

/// Whether an expression is this column of the table in this position.
fn is_column(position: u32, number: u32, expr: &Expr) -> bool
    ensures { result ≡ is_column position number (out-Expr expr.now) }
{
    match expr {
        Expr::Column { table, column } => *table == position && *column == number,
        _ => false,
    }
}

/// What an expression seeks by: a literal that isn't NULL, or a column of an earlier table.
fn seeks_by<'a>(earlier: &[u32], expr: &'a Expr) -> Option<Found<'a>>
    ensures { option_map part_at result ≡ seeks_by earlier.now (out-Expr expr.now) }
{
    match expr {
        Expr::Literal(Value::Null) => None,
        Expr::Literal(value) => Some(Found::Literal(value)),
        Expr::Column { table, column } if earlier.contains(table) => Some(Found::Column {
            table: *table,
            column: *column,
        }),
        _ => None,
    }
}
