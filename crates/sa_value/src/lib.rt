//! Values of SQL: NULL, numbers and texts, rows of them, and the truth of a comparison.
//!
//! Every other crate stands on these types. MariaDB's Knowledge Base describes the rules of truth
//! under "Comparison Operators" and "NULL Values".
#![tactic(auto)]

mod comparison;
mod memory;
mod row;
mod sequence;
mod text;
mod texts;
mod truth;
mod value;
mod values;

pub use comparison::{compare, order_is_total, order_of};
pub use memory::OutOfMemory;
pub use row::{Row, Rows};
pub use sequence::Sequence;
pub use text::Text;
pub use texts::Texts;
pub use truth::{CompareOp, Truth};
pub use value::{Value, ValueRef};
pub use values::Values;

#[cfg(test)]
mod tests;
