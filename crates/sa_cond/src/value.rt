ghost use Rattle.std.specs.Prelude.{◌≡◌, All};
ghost use Rattle.sa_value.specs.Value.{value_at};
ghost use Rattle.sa_cond.specs.Choice.{Choice};
ghost use Rattle.sa_cond.specs.Cited.{IsThere, CanEvaluate, expr_names};
ghost use Rattle.sa_cond.specs.Expression.{expr_value};

use crate::cells::Cells;
use crate::expr::Expr;
use crate::number::operand;
use sa_value::ValueRef;

/// The value of an expression.
///
/// Source: MariaDB Knowledge Base, "Arithmetic Operators".
pub fn value_of<'a, R: Cells>(expr: &'a Expr, rows: &'a R) -> ValueRef<'a>
    requires there { All (IsThere (R.has_cell rows.now) (R.has_slot rows.now)) (expr_names expr.now) }
    requires typed { CanEvaluate (record { cell = R.cell_of rows.now; slot = R.slot_of rows.now })
        expr.now }
    ensures { value_at result
        ≡ expr_value (record { cell = R.cell_of rows.now; slot = R.slot_of rows.now })
        expr.now }
{
    match expr {
        Expr::Column { table, column } => rows.cell(*table, *column),
        Expr::Slot(number) => rows.slot(*number),
        Expr::Literal(value) => value.view(),
        Expr::Negate(_) | Expr::Add(_, _) | Expr::Subtract(_, _) | Expr::Multiply(_, _) => {
            match operand(expr, rows) {
                None => ValueRef::Null,
                Some(number) => ValueRef::Int(number),
            }
        }
    }
}
