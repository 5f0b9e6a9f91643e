//! Expressions and conditions over the rows of tables: their trees, what they mean, and how they are
//! evaluated.
//!
//! Three-valued truth follows MariaDB's Knowledge Base, "Comparison Operators", "Logical Operators" and
//! "NULL Values in MariaDB".
#![tactic(auto)]

mod cells;
mod comparison;
mod cond;
mod ends;
mod evaluation;
mod expr;
mod law;
mod number;
mod predicate;
mod static_interval;
mod value;

pub use cells::{CellKind, Cells, Kinds};
pub use cond::{Cond, Conds};
pub use evaluation::eval;
pub use expr::{Expr, Exprs};
pub use law::{interval_holds_values, names_decide_truth, names_decide_value};
pub use static_interval::interval;
pub use value::value_of;
