ghost use Rattle.std.specs.Prelude.{◌≡◌, option_map};
ghost use Rattle.sa_simplify.specs.Propagate.{fix_in, is_same_place, join_in, join_of, other_place};
ghost use Rattle.sa_simplify.specs.inner.Equality.{fix_at, join_at};

use sa_cond::{Cond, Expr};
use sa_value::{CompareOp, Value};

/// A column of the table in this position of FROM.
#[derive(Clone, Copy, Debug, PartialEq, Eq)]
pub(crate) struct Place {
    pub(crate) table: u32,
    pub(crate) column: u32,
}

/// The two different columns that a condition says are equal.
pub(crate) fn join(cond: &Cond) -> Option<(Place, Place)>
    ensures { option_map join_at result ≡ join_in cond.now }
{
    match cond {
        Cond::Compare {
            op: CompareOp::Eq,
            left: Expr::Column { table, column },
            right: Expr::Column {
                table: other_table,
                column: other_column,
            },
        } => different(
            Place {
                table: *table,
                column: *column,
            },
            Place {
                table: *other_table,
                column: *other_column,
            },
        ),
        _ => None,
    }
}

/// Two columns, if they differ.
fn different(left: Place, right: Place) -> Option<(Place, Place)>
    ensures { option_map join_at result ≡ join_of left right }
{
    if is_same(left, right) {
        None
    } else {
        Some((left, right))
    }
}

/// Whether two columns are the same.
pub(crate) fn is_same(x: Place, y: Place) -> bool
    ensures { result ≡ is_same_place x y }
{
    x.table == y.table && x.column == y.column
}

/// The other one of two columns that are equal.
pub(crate) fn other(join: (Place, Place), x: Place) -> Option<Place>
    ensures { result ≡ other_place (join_at join) x }
{
    if is_same(x, join.0) {
        Some(join.1)
    } else if is_same(x, join.1) {
        Some(join.0)
    } else {
        None
    }
}

/// The column that a condition says equals a literal other than NULL.
pub(crate) fn fix(cond: &Cond) -> Option<(Place, &Value)>
    ensures { option_map fix_at result ≡ fix_in cond.now }
{
    match cond {
        Cond::Compare {
            op: CompareOp::Eq,
            left: Expr::Column { table, column },
            right: Expr::Literal(literal),
        } => match literal {
            Value::Null => None,
            _ => Some((
                Place {
                    table: *table,
                    column: *column,
                },
                literal,
            )),
        },
        _ => None,
    }
}
