ghost use Rattle.std.specs.Prelude.{◌≡◌, ℕ, ◌+◌, ◌==◌, ◌&&◌, not, length, IfOk};
ghost use Rattle.std.specs.List.{list_any, position, position_or_len};
ghost use Rattle.indexmap.specs.IndexSet.{contains_by};
ghost use Rattle.sa_cond.specs.declared.expr.Expr.TheVariants.{Slot};
ghost use Rattle.sa_query.specs.declared.group.Column.{Column};
ghost use Rattle.sa_resolve.specs.Same.{same_aggregate, same_argument, same_call, same_column, same_expr};
ghost use Rattle.sa_resolve.specs.inner.Same.{same_value};

use crate::numbers::small;
use indexmap::IndexSet;
use sa_ast::AggregateCall;
use sa_cond::Expr;
use sa_query::{Aggregate, Column};
use sa_value::{OutOfMemory, Value, order_of};
use std::alloc::Global;

/// The slots of a query that groups: its GROUP BY columns and then its aggregates.
#[derive(Drop)]
pub(crate) struct Slots {
    pub(crate) group: Vec<Column>,
    /// The same as a set.
    grouped: IndexSet<(u32, u32)>,
    /// Each different one once.
    pub(crate) aggregates: Vec<Aggregate>,
    ghost grouped_is: { (column : Column) →
        contains_by (λ (key : ℕ × ℕ). column.table == key.0 && column.column == key.1) grouped
        ≡ list_any (same_column column) group.items },
}

impl Slots {
    /// The slots of these columns and aggregates.
    pub(crate) fn new(
        alloc: Global,
        group: Vec<Column>,
        aggregates: Vec<Aggregate>,
    ) -> Result<Slots, OutOfMemory>
        ensures { IfOk result (λ slots. (slots.group.items ≡ group.items)
            × (slots.aggregates.items ≡ aggregates.items)) }
    {
        let mut grouped = IndexSet::new(alloc);
        for one in &group {
            grouped.insert((one.table, one.column))?;
        }
        Ok(Slots {
            group,
            grouped,
            aggregates,
        })
    }

    /// Whether a column is none of GROUP BY.
    pub(crate) fn is_loose(&self, column: Column) -> bool
        ensures { result ≡ not (list_any (same_column column) self.now.group.items) }
    {
        !self.grouped.contains(&(column.table, column.column))
    }

    /// What stands for a column: the first slot of it.
    pub(crate) fn column(&self, column: Column) -> Result<Expr, OutOfMemory>
        ensures { IfOk result
            (λ expr. expr ≡ Slot (position_or_len (same_column column) self.now.group.items)) }
    {
        let slot = first_column(self.group.as_slice(), column);
        Ok(Expr::Slot(small(slot)?))
    }

    /// What stands for an aggregate: its slot.
    pub(crate) fn aggregate(&self, aggregate: &Aggregate) -> Result<Expr, OutOfMemory>
        ensures { IfOk result (λ expr. expr ≡ Slot (length self.now.group.items
            + position_or_len (same_aggregate aggregate.now) self.now.aggregates.items)) }
    {
        let slot = first_aggregate(self.aggregates.as_slice(), aggregate);
        match self.group.len().checked_add(slot) {
            None => Err(OutOfMemory),
            Some(slot) => Ok(Expr::Slot(small(slot)?)),
        }
    }
}

/// The position of a column, or how many there are.
fn first_column(columns: &[Column], column: Column) -> usize
    ensures { result ≡ position_or_len (same_column column) columns.now }
{
    column_at(columns, column).unwrap_or(columns.len())
}

fn column_at(columns: &[Column], column: Column) -> Option<usize>
    ensures { result ≡ position (same_column column) columns.now }
{
    columns
        .iter()
        .position(|other| is_same_column(column, *other))
}

/// Whether two columns are the same.
fn is_same_column(one: Column, other: Column) -> bool
    ensures { result ≡ same_column one other }
{
    one.table == other.table && one.column == other.column
}

/// The position of an aggregate, or how many there are.
fn first_aggregate(aggregates: &[Aggregate], aggregate: &Aggregate) -> usize
    ensures { result ≡ position_or_len (same_aggregate aggregate.now) aggregates.now }
{
    aggregate_at(aggregates, aggregate).unwrap_or(aggregates.len())
}

/// The position of an aggregate, if it is there.
pub(crate) fn aggregate_at(aggregates: &[Aggregate], aggregate: &Aggregate) -> Option<usize>
    ensures { result ≡ position (same_aggregate aggregate.now) aggregates.now }
{
    aggregates
        .iter()
        .position(|other| same_aggregate(aggregate, other))
}

/// Whether two aggregates are the same tree.
fn same_aggregate(one: &Aggregate, other: &Aggregate) -> bool
    ensures { result ≡ same_aggregate one.now other.now }
{
    same_call(one.call, other.call) && same_argument(&one.argument, &other.argument)
}

fn same_call(one: AggregateCall, other: AggregateCall) -> bool
    ensures { result ≡ same_call one other }
{
    match (one, other) {
        (AggregateCall::CountRows, AggregateCall::CountRows) => true,
        (AggregateCall::Count, AggregateCall::Count) => true,
        (AggregateCall::Sum, AggregateCall::Sum) => true,
        (AggregateCall::Min, AggregateCall::Min) => true,
        (AggregateCall::Max, AggregateCall::Max) => true,
        _ => false,
    }
}

fn same_argument(one: &Option<Expr>, other: &Option<Expr>) -> bool
    ensures { result ≡ same_argument one.now other.now }
{
    match (one, other) {
        (None, None) => true,
        (Some(one), Some(other)) => same_expr(one, other),
        _ => false,
    }
}

/// Whether two resolved expressions are the same tree.
pub(crate) fn same_expr(one: &Expr, other: &Expr) -> bool
    ensures { result ≡ same_expr one.now other.now }
{
    match (one, other) {
        (
            Expr::Column { table, column },
            Expr::Column {
                table: other_table,
                column: other_column,
            },
        ) => table == other_table && column == other_column,
        (Expr::Slot(slot), Expr::Slot(other)) => slot == other,
        (Expr::Literal(value), Expr::Literal(other)) => same_value(value, other),
        (Expr::Negate(x), Expr::Negate(other)) => same_expr(x.get(), other.get()),
        (Expr::Add(x, y), Expr::Add(left, right)) => {
            same_expr(x.get(), left.get()) && same_expr(y.get(), right.get())
        }
        (Expr::Subtract(x, y), Expr::Subtract(left, right)) => {
            same_expr(x.get(), left.get()) && same_expr(y.get(), right.get())
        }
        (Expr::Multiply(x, y), Expr::Multiply(left, right)) => {
            same_expr(x.get(), left.get()) && same_expr(y.get(), right.get())
        }
        _ => false,
    }
}

fn same_value(one: &Value, other: &Value) -> bool
    ensures { result ≡ same_value one.now other.now }
{
    order_of(one.view(), other.view()).is_eq()
}
