ghost use Rattle.std.specs.Prelude.{◌≡◌, All, option_map};
ghost use Rattle.sa_cond.specs.Cited.{IsThere, expr_names};
ghost use Rattle.sa_cond.specs.Interval.{CellKinds, static_interval};
ghost use Rattle.sa_cond.specs.inner.Ends.{interval_at};

use crate::cells::Kinds;
use crate::ends::Ends;
use crate::expr::Expr;

/// The least and the greatest number that an expression can have with these kinds of its columns and
/// slots. NULL counts as 0.
///
/// There is none where the expression or a part of it is a text or leaves the range of BIGINT, as a sum
/// may.
pub fn interval<K: Kinds>(expr: &Expr, kinds: &K) -> Option<(i128, i128)>
    requires there { All (IsThere (K.has_column kinds.now) (K.has_slot kinds.now))
        (expr_names expr.now) }
    ensures exact { result ≡ option_map (λ interval. (interval.least, interval.greatest))
        (static_interval (record { column = K.column_kind kinds.now; slot = K.slot_kind kinds.now })
        expr.now) }
{
    let Ends { least, greatest } = ends(expr, kinds)?;
    Some((i128::from(least), i128::from(greatest)))
}

/// The same as ends of 64 bits.
fn ends<K: Kinds>(expr: &Expr, kinds: &K) -> Option<Ends>
    requires there { All (IsThere (K.has_column kinds.now) (K.has_slot kinds.now))
        (expr_names expr.now) }
    ensures { option_map interval_at result
        ≡ static_interval (record { column = K.column_kind kinds.now; slot = K.slot_kind kinds.now })
        expr.now }
{
    match expr {
        Expr::Column { table, column } => Ends::of_cell(kinds.column(*table, *column)),
        Expr::Slot(number) => Ends::of_cell(kinds.slot(*number)),
        Expr::Literal(value) => Ends::of_literal(value),
        Expr::Negate(x) => ends(x.get(), kinds)?.negated(),
        Expr::Add(left, right) => ends(left.get(), kinds)?.added(ends(right.get(), kinds)?),
        Expr::Subtract(left, right) => ends(left.get(), kinds)?.subtracted(ends(
            right.get(),
            kinds,
        )?),
        Expr::Multiply(left, right) => ends(left.get(), kinds)?.multiplied(ends(
            right.get(),
            kinds,
        )?),
    }
}
