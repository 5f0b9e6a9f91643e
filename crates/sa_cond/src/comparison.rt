ghost use Rattle.std.specs.Prelude.{◌≡◌, All};
ghost use Rattle.sa_value.specs.declared.value.Value.TheVariants.{Int};
ghost use Rattle.sa_value.specs.Compare.{known as known_truth, truth_of};
ghost use Rattle.sa_cond.specs.Choice.{Choice};
ghost use Rattle.sa_cond.specs.Cited.{IsThere, expr_names};
ghost use Rattle.sa_cond.specs.Expression.{expr_value};
ghost use Rattle.sa_cond.specs.inner.Compared.{CanRelate};
ghost use Rattle.sa_cond.specs.inner.Small.{small_number};

use crate::cells::Cells;
use crate::expr::Expr;
use crate::number::operand;
use crate::value::value_of;
use sa_value::{CompareOp, Truth, compare};

/// The truth of a comparison of two expressions.
#[inline(always)]
pub(crate) fn compared<R: Cells>(op: CompareOp, left: &Expr, right: &Expr, rows: &R) -> Truth
    requires left_there { All (IsThere (R.has_cell rows.now) (R.has_slot rows.now))
        (expr_names left.now) }
    requires right_there { All (IsThere (R.has_cell rows.now) (R.has_slot rows.now))
        (expr_names right.now) }
    requires typed { CanRelate (record { cell = R.cell_of rows.now; slot = R.slot_of rows.now })
        left.now right.now }
    ensures { result ≡ truth_of op
        (expr_value (record { cell = R.cell_of rows.now; slot = R.slot_of rows.now }) left.now)
        (expr_value (record { cell = R.cell_of rows.now; slot = R.slot_of rows.now }) right.now) }
{
    compared_with(op, operand(left, rows), left, right, rows)
}

/// The same, where the number on the left is known already.
#[inline(always)]
pub(crate) fn compared_with<R: Cells>(
    op: CompareOp,
    number: Option<i64>,
    left: &Expr,
    right: &Expr,
    rows: &R,
) -> Truth
    requires number_is { number ≡ small_number
        (expr_value (record { cell = R.cell_of rows.now; slot = R.slot_of rows.now }) left.now) }
    requires left_there { All (IsThere (R.has_cell rows.now) (R.has_slot rows.now))
        (expr_names left.now) }
    requires right_there { All (IsThere (R.has_cell rows.now) (R.has_slot rows.now))
        (expr_names right.now) }
    requires typed { CanRelate (record { cell = R.cell_of rows.now; slot = R.slot_of rows.now })
        left.now right.now }
    ensures { result ≡ truth_of op
        (expr_value (record { cell = R.cell_of rows.now; slot = R.slot_of rows.now }) left.now)
        (expr_value (record { cell = R.cell_of rows.now; slot = R.slot_of rows.now }) right.now) }
{
    match (number, operand(right, rows)) {
        (Some(left), Some(right)) => compare_numbers(op, left, right),
        _ => compare_values(op, left, right, rows),
    }
}

/// The truth of a comparison of two numbers of 64 bits.
pub(crate) fn compare_numbers(op: CompareOp, left: i64, right: i64) -> Truth
    ensures { result ≡ truth_of op (Int left) (Int right) }
{
    known(match op {
        CompareOp::Eq | CompareOp::NullEq => left == right,
        CompareOp::Ne => left != right,
        CompareOp::Lt => left < right,
        CompareOp::Le => left <= right,
        CompareOp::Gt => left > right,
        CompareOp::Ge => left >= right,
    })
}

/// The truth of a comparison where an operand is NULL, a text or a sum.
#[inline(never)]
pub(crate) fn compare_values<R: Cells>(op: CompareOp, left: &Expr, right: &Expr, rows: &R) -> Truth
    requires left_there { All (IsThere (R.has_cell rows.now) (R.has_slot rows.now))
        (expr_names left.now) }
    requires right_there { All (IsThere (R.has_cell rows.now) (R.has_slot rows.now))
        (expr_names right.now) }
    requires typed { CanRelate (record { cell = R.cell_of rows.now; slot = R.slot_of rows.now })
        left.now right.now }
    ensures { result ≡ truth_of op
        (expr_value (record { cell = R.cell_of rows.now; slot = R.slot_of rows.now }) left.now)
        (expr_value (record { cell = R.cell_of rows.now; slot = R.slot_of rows.now }) right.now) }
{
    compare(op, value_of(left, rows), value_of(right, rows))
}

/// The truth of what is known to hold or not.
pub(crate) fn known(holds: bool) -> Truth
    ensures { result ≡ known_truth holds }
{
    if holds { Truth::True } else { Truth::False }
}
