//! Whether a key holds all that a query names of its table.

ghost use Rattle.std.specs.Prelude.{◌≡◌};
ghost use Rattle.std.specs.List.{list_all};
ghost use Rattle.sa_cond.specs.Cited.{column as column_name, expr_names, cond_names};
ghost use Rattle.sa_access.specs.Offered.{is_held, names_in, used_names};

use sa_cond::{Cond, Expr};
use sa_query::{Aggregate, Column, Item, OrderKey, Query};

/// The columns of a key of the table in a position of FROM.
#[derive(Drop)]
pub(crate) struct KeyColumns<'a> {
    pub(crate) position: u32,
    pub(crate) parts: &'a [u32],
}

/// Whether a key holds all columns of its table that a query names.
pub(crate) fn covers(columns: &KeyColumns<'_>, query: &Query) -> bool
    ensures { result ≡ list_all (is_held columns.now.position columns.now.parts.now)
        (used_names query.now) }
{
    if !holds_cond(columns, &query.filter) {
        return false;
    }
    if !holds_select(columns, query.select.as_slice()) {
        return false;
    }
    if !holds_group(columns, query.group.as_slice()) {
        return false;
    }
    if !holds_aggregates(columns, query.aggregates.as_slice()) {
        return false;
    }
    holds_having(columns, &query.having) && holds_order(columns, query.order.as_slice())
}

/// Whether it holds what the select list names.
fn holds_select(columns: &KeyColumns<'_>, items: &[Item]) -> bool
    ensures { result ≡ list_all
        (λ item. list_all (is_held columns.now.position columns.now.parts.now)
        (expr_names item.value)) items.now }
{
    items.iter().all(|item| holds_expr(columns, &item.value))
}

/// Whether it holds the columns of GROUP BY.
fn holds_group(columns: &KeyColumns<'_>, group: &[Column]) -> bool
    ensures { result ≡ list_all
        (λ one. is_held columns.now.position columns.now.parts.now
        (column_name one.table one.column)) group.now }
{
    group
        .iter()
        .all(|one| holds_column(columns, one.table, one.column))
}

/// Whether it holds what aggregates are of.
fn holds_aggregates(columns: &KeyColumns<'_>, aggregates: &[Aggregate]) -> bool
    ensures { result ≡ list_all
        (λ one. list_all (is_held columns.now.position columns.now.parts.now)
        (names_in expr_names one.argument)) aggregates.now }
{
    aggregates
        .iter()
        .all(|one| holds_argument(columns, &one.argument))
}

/// Whether it holds what an aggregate is of.
fn holds_argument(columns: &KeyColumns<'_>, argument: &Option<Expr>) -> bool
    ensures { result ≡ list_all (is_held columns.now.position columns.now.parts.now)
        (names_in expr_names argument.now) }
{
    match argument {
        None => true,
        Some(expr) => holds_expr(columns, expr),
    }
}

/// Whether it holds what HAVING names.
fn holds_having(columns: &KeyColumns<'_>, having: &Option<Cond>) -> bool
    ensures { result ≡ list_all (is_held columns.now.position columns.now.parts.now)
        (names_in cond_names having.now) }
{
    match having {
        None => true,
        Some(cond) => holds_cond(columns, cond),
    }
}

/// Whether it holds what ORDER BY names.
fn holds_order(columns: &KeyColumns<'_>, keys: &[OrderKey]) -> bool
    ensures { result ≡ list_all
        (λ key. list_all (is_held columns.now.position columns.now.parts.now)
        (expr_names key.value)) keys.now }
{
    keys.iter().all(|key| holds_expr(columns, &key.value))
}

/// Whether it holds what a condition names.
#[cycle(cond)]
fn holds_cond(columns: &KeyColumns<'_>, cond: &Cond) -> bool
    ensures { result ≡ list_all (is_held columns.now.position columns.now.parts.now)
        (cond_names cond.now) }
{
    match cond {
        Cond::Known(_) => true,
        Cond::Compare { op: _, left, right } => {
            holds_expr(columns, left) && holds_expr(columns, right)
        }
        Cond::IsNull(expr) | Cond::NotNull(expr) => holds_expr(columns, expr),
        Cond::Between { value, low, high } => {
            holds_expr(columns, value) && holds_expr(columns, low) && holds_expr(columns, high)
        }
        Cond::Among { value, list } => {
            holds_expr(columns, value) && holds_exprs(columns, list.as_slice())
        }
        Cond::And(members) | Cond::Or(members) => holds_conds(columns, members.as_slice()),
        Cond::Not(inner) => holds_cond(columns, inner.get()),
    }
}

/// Whether it holds what several conditions name.
#[cycle(cond)]
fn holds_conds(columns: &KeyColumns<'_>, conds: &[Cond]) -> bool
    ensures { result ≡ list_all
        (λ cond. list_all (is_held columns.now.position columns.now.parts.now)
        (cond_names cond)) conds.now }
{
    for cond in conds {
        if !holds_cond(columns, cond) {
            return false;
        }
    }
    true
}

/// Whether it holds what several expressions name.
fn holds_exprs(columns: &KeyColumns<'_>, exprs: &[Expr]) -> bool
    ensures { result ≡ list_all
        (λ expr. list_all (is_held columns.now.position columns.now.parts.now)
        (expr_names expr)) exprs.now }
{
    exprs.iter().all(|expr| holds_expr(columns, expr))
}

/// Whether it holds what an expression names.
fn holds_expr(columns: &KeyColumns<'_>, expr: &Expr) -> bool
    ensures { result ≡ list_all (is_held columns.now.position columns.now.parts.now)
        (expr_names expr.now) }
{
    match expr {
        Expr::Column { table, column } => holds_column(columns, *table, *column),
        Expr::Slot(_) | Expr::Literal(_) => true,
        Expr::Negate(inner) => holds_expr(columns, inner.get()),
        Expr::Add(left, right) | Expr::Subtract(left, right) | Expr::Multiply(left, right) => {
            holds_expr(columns, left.get()) && holds_expr(columns, right.get())
        }
    }
}

/// Whether a column is of another table, or it holds the column.
fn holds_column(columns: &KeyColumns<'_>, table: u32, column: u32) -> bool
    ensures { result ≡ is_held columns.now.position columns.now.parts.now
        (column_name table column) }
{
    table != columns.position || columns.parts.contains(&column)
}
