ghost use Rattle.std.specs.Prelude.{◌≡◌, All, if◌then◌else◌};
ghost use Rattle.sa_value.specs.Value.{value_at};
ghost use Rattle.sa_cond.specs.Choice.{Choice};
ghost use Rattle.sa_cond.specs.Cited.{IsThere, CanEvaluate, expr_names};
ghost use Rattle.sa_cond.specs.Expression.{expr_value};
ghost use Rattle.sa_cond.specs.Interval.{is_bigint};
ghost use Rattle.sa_cond.specs.inner.Small.{small_number};

use crate::cells::Cells;
use crate::expr::Expr;
use sa_value::ValueRef;

/// The number of an expression, if it is one of 64 bits. NULL, a text and a sum that leaves 64 bits are none.
///
/// Where an operand is a column or a literal the node above reads it, without a call.
#[cycle(number)]
fn number<R: Cells>(expr: &Expr, rows: &R) -> Option<i64>
    requires there { All (IsThere (R.has_cell rows.now) (R.has_slot rows.now)) (expr_names expr.now) }
    requires typed { CanEvaluate (record { cell = R.cell_of rows.now; slot = R.slot_of rows.now })
        expr.now }
    ensures { result ≡ small_number
        (expr_value (record { cell = R.cell_of rows.now; slot = R.slot_of rows.now }) expr.now) }
{
    match expr {
        Expr::Column { table, column } => small(rows.cell(*table, *column)),
        Expr::Slot(number) => small(rows.slot(*number)),
        Expr::Literal(value) => small(value.view()),
        Expr::Negate(x) => Some(-operand(x.get(), rows)?),
        Expr::Add(left, right) => Some(operand(left.get(), rows)? + operand(right.get(), rows)?),
        Expr::Subtract(left, right) => {
            Some(operand(left.get(), rows)? - operand(right.get(), rows)?)
        }
        Expr::Multiply(left, right) => {
            Some(operand(left.get(), rows)? * operand(right.get(), rows)?)
        }
    }
}

/// The same, with columns and literals read here.
#[cycle(number)]
#[inline(always)]
pub(crate) fn operand<R: Cells>(expr: &Expr, rows: &R) -> Option<i64>
    requires there { All (IsThere (R.has_cell rows.now) (R.has_slot rows.now)) (expr_names expr.now) }
    requires typed { CanEvaluate (record { cell = R.cell_of rows.now; slot = R.slot_of rows.now })
        expr.now }
    ensures { result ≡ small_number
        (expr_value (record { cell = R.cell_of rows.now; slot = R.slot_of rows.now }) expr.now) }
{
    match expr {
        Expr::Column { table, column } => small(rows.cell(*table, *column)),
        Expr::Literal(value) => small(value.view()),
        _ => number(expr, rows),
    }
}

/// The number of a value, if it is one of 64 bits.
fn small(value: ValueRef<'_>) -> Option<i64>
    ensures { result ≡ small_number (value_at value.entry) }
{
    match value {
        ValueRef::Null | ValueRef::Text(_) => None,
        ValueRef::Int(number) => Some(number),
        ValueRef::Big(number) => bigint(number),
    }
}

/// A number, if it is in the range of BIGINT.
pub(crate) fn bigint(number: i128) -> Option<i64>
    ensures { result ≡ (if is_bigint number then Some number else None) }
{
    i64::try_from(number).ok()
}
