ghost use Rattle.std.specs.Prelude.{◌≡◌, All, map};
ghost use Rattle.sa_cond.specs.Choice.{Choice};
ghost use Rattle.sa_cond.specs.Cited.{IsThere, CanEvaluate, expr_names};
ghost use Rattle.sa_cond.specs.Expression.{expr_value};
ghost use Rattle.sa_cond.specs.Condition.{between as between_truth, among as among_truth, is_null as is_null_value};
ghost use Rattle.sa_cond.specs.inner.Compared.{CanRelate};

use crate::cells::Cells;
use crate::comparison::compared_with;
use crate::expr::Expr;
use crate::number::operand;
use crate::value::value_of;
use sa_value::{CompareOp, Truth, ValueRef};

/// Whether an expression is NULL.
pub(crate) fn is_null<R: Cells>(expr: &Expr, rows: &R) -> bool
    requires there { All (IsThere (R.has_cell rows.now) (R.has_slot rows.now)) (expr_names expr.now) }
    requires typed { CanEvaluate (record { cell = R.cell_of rows.now; slot = R.slot_of rows.now })
        expr.now }
    ensures { result ≡ is_null_value
        (expr_value (record { cell = R.cell_of rows.now; slot = R.slot_of rows.now }) expr.now) }
{
    match operand(expr, rows) {
        Some(_) => false,
        None => matches!(value_of(expr, rows), ValueRef::Null),
    }
}

/// The truth of BETWEEN.
pub(crate) fn between<R: Cells>(value: &Expr, low: &Expr, high: &Expr, rows: &R) -> Truth
    requires value_there { All (IsThere (R.has_cell rows.now) (R.has_slot rows.now))
        (expr_names value.now) }
    requires low_there { All (IsThere (R.has_cell rows.now) (R.has_slot rows.now))
        (expr_names low.now) }
    requires high_there { All (IsThere (R.has_cell rows.now) (R.has_slot rows.now))
        (expr_names high.now) }
    requires low_typed { CanRelate (record { cell = R.cell_of rows.now; slot = R.slot_of rows.now })
        value.now low.now }
    requires high_typed { CanRelate (record { cell = R.cell_of rows.now; slot = R.slot_of rows.now })
        value.now high.now }
    ensures { result ≡ between_truth
        (expr_value (record { cell = R.cell_of rows.now; slot = R.slot_of rows.now }) value.now)
        (expr_value (record { cell = R.cell_of rows.now; slot = R.slot_of rows.now }) low.now)
        (expr_value (record { cell = R.cell_of rows.now; slot = R.slot_of rows.now }) high.now) }
{
    let number = operand(value, rows);
    let from_low = compared_with(CompareOp::Ge, number, value, low, rows);
    from_low.and(compared_with(CompareOp::Le, number, value, high, rows))
}

/// The truth of IN.
pub(crate) fn among<R: Cells>(value: &Expr, list: &[Expr], rows: &R) -> Truth
    requires value_there { All (IsThere (R.has_cell rows.now) (R.has_slot rows.now))
        (expr_names value.now) }
    requires value_typed { CanEvaluate (record { cell = R.cell_of rows.now; slot = R.slot_of rows.now })
        value.now }
    requires there { All (λ member. All (IsThere (R.has_cell rows.now) (R.has_slot rows.now))
        (expr_names member)) list.now }
    requires typed { All (CanRelate (record { cell = R.cell_of rows.now; slot = R.slot_of rows.now })
        value.now) list.now }
    ensures { result ≡ among_truth
        (expr_value (record { cell = R.cell_of rows.now; slot = R.slot_of rows.now }) value.now)
        (map (expr_value (record { cell = R.cell_of rows.now; slot = R.slot_of rows.now })) list.now) }
{
    let number = operand(value, rows);
    let mut truth = Truth::False;
    for member in list {
        truth = truth.or(compared_with(CompareOp::Eq, number, value, member, rows));
        if truth == Truth::True {
            return Truth::True;
        }
    }
    truth
}
