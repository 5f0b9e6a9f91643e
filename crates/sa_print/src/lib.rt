//! The canonical text of a statement and of an expression.
//!
//! Traces show the text of a statement, and a column that has no name is named by the text of its expression.
#![tactic(auto)]

mod expression;
mod from;
mod name;
mod operation;
mod printer;
mod quoted;
mod select;
mod statement;
mod word;

pub use expression::expr_text;
pub use statement::statement_text;
