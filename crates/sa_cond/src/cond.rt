use crate::expr::{Expr, Exprs};
use sa_value::{CompareOp, Truth};
use sqlite_items::{Boxed, Items};

/// A condition whose names are resolved: a truth for each choice of rows.
///
/// NOT BETWEEN and NOT IN are a `Not` over `Between` and `Among`.
///
/// Source: MariaDB Knowledge Base, "Comparison Operators" and "Logical Operators".
#[derive(Debug, Drop)]
pub enum Cond {
    Known(Truth),
    Compare {
        op: CompareOp,
        left: Expr,
        right: Expr,
    },
    IsNull(Expr),
    NotNull(Expr),
    /// `value >= low AND value <= high`
    Between {
        value: Expr,
        low: Expr,
        high: Expr,
    },
    /// The value equals a member of the list: the OR of the equalities.
    Among {
        value: Expr,
        list: Exprs,
    },
    And(Conds),
    Or(Conds),
    Not(Boxed<Cond>),
}

/// A list of conditions.
pub type Conds = Items<Cond>;
