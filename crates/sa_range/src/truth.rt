ghost use Rattle.std.specs.Prelude.{◌≡◌, map};
ghost use Rattle.sa_cond.specs.declared.expr.Expr.{out-Expr};
ghost use Rattle.sa_cond.specs.Condition.{all_of as all_truth, any_of as any_truth};
ghost use Rattle.sa_range.specs.Atom.{atom_truth, column_in as table_column, comparison, literal_in as literal_value, null_test, truth_on as condition_truth, written_truth};
ghost use Rattle.sa_range.specs.inner.Placed.{chosen_at};

use crate::atom::{column_in, literal_in};
use crate::chosen::Chosen;
use crate::comparison::{compared_on, tested_on};
use sa_cond::{Cond, Expr};
use sa_value::{CompareOp, Truth};

/// The truth of a condition where some columns of a table stand on chosen pieces. What speaks of
/// anything else counts as TRUE.
///
/// Source: MariaDB Knowledge Base, "EXPLAIN", type "range".
#[cycle(truth)]
pub(crate) fn truth_on(table: u32, chosen: &Chosen<'_>, cond: &Cond) -> Truth
    ensures { result ≡ condition_truth table (chosen_at chosen.now) cond.now }
{
    match cond {
        Cond::Known(truth) => written(*truth),
        Cond::Compare { op, left, right } => compared(table, chosen, *op, left, right),
        Cond::IsNull(expr) => tested(table, chosen, true, expr),
        Cond::NotNull(expr) => tested(table, chosen, false, expr),
        Cond::And(members) => all_of(table, chosen, members.as_slice()),
        Cond::Or(members) => any_of(table, chosen, members.as_slice()),
        Cond::Between {
            value: _,
            low: _,
            high: _,
        } => Truth::True,
        Cond::Among { value: _, list: _ } => Truth::True,
        Cond::Not(_) => Truth::True,
    }
}

/// The truth of an AND. It stops at the first member that is FALSE.
#[cycle(truth)]
fn all_of(table: u32, chosen: &Chosen<'_>, members: &[Cond]) -> Truth
    ensures { result ≡ all_truth (map (condition_truth table (chosen_at chosen.now)) members.now) }
{
    let mut truth = Truth::True;
    for member in members {
        truth = truth.and(truth_on(table, chosen, member));
        if truth == Truth::False {
            return Truth::False;
        }
    }
    truth
}

/// The truth of an OR. It stops at the first member that is TRUE.
#[cycle(truth)]
fn any_of(table: u32, chosen: &Chosen<'_>, members: &[Cond]) -> Truth
    ensures { result ≡ any_truth (map (condition_truth table (chosen_at chosen.now)) members.now) }
{
    let mut truth = Truth::False;
    for member in members {
        truth = truth.or(truth_on(table, chosen, member));
        if truth == Truth::True {
            return Truth::True;
        }
    }
    truth
}

/// The truth of a comparison, TRUE where it isn't one of a chosen column with a literal.
fn compared(table: u32, chosen: &Chosen<'_>, op: CompareOp, left: &Expr, right: &Expr) -> Truth
    ensures { result ≡ atom_truth (chosen_at chosen.now)
        (comparison op (table_column table (out-Expr left.now))
        (literal_value (out-Expr right.now))) }
{
    let Some(column) = column_in(table, left) else {
        return Truth::True;
    };
    let Some(literal) = literal_in(right) else {
        return Truth::True;
    };
    match chosen.piece_at(column) {
        None => Truth::True,
        Some(piece) => compared_on(op, literal, piece),
    }
}

/// The truth of IS NULL or IS NOT NULL, TRUE where it isn't one of a chosen column.
fn tested(table: u32, chosen: &Chosen<'_>, for_null: bool, expr: &Expr) -> Truth
    ensures { result ≡ atom_truth (chosen_at chosen.now)
        (null_test for_null (table_column table (out-Expr expr.now))) }
{
    let Some(column) = column_in(table, expr) else {
        return Truth::True;
    };
    let Some(piece) = chosen.piece_at(column) else {
        return Truth::True;
    };
    tested_on(for_null, piece)
}

/// The truth that a truth counts as where it is written: UNKNOWN counts as TRUE.
fn written(truth: Truth) -> Truth
    ensures { result ≡ written_truth truth }
{
    match truth {
        Truth::False => Truth::False,
        Truth::Unknown => Truth::True,
        Truth::True => Truth::True,
    }
}
