//! The trees of statements and of the directives of a script, as the parser makes them and the printer and the resolver read them.
//!
//! Contracts see a tree as plain data without pointers, and a list of trees as a list.
#![tactic(auto)]

mod create;
mod directive;
mod expression;
mod insert;
mod kind;
mod name;
mod select;
mod statement;

pub use create::{ColumnTree, ColumnTrees, CreateTree, KeyTree, KeyTrees, KindTree};
pub use directive::{Directive, NumberTree, NumberTrees};
pub use expression::{AggregateCall, ExprNode, ExprTree, ExprTrees};
pub use insert::{InsertTree, TupleTree, TupleTrees};
pub use kind::{AskKind, KillKind};
pub use name::{NameTree, NameTrees};
pub use select::{
    GroupTree, GroupTrees, ItemNode, ItemTree, ItemTrees, OrderTree, OrderTrees, SelectTree,
    TableTree, TableTrees,
};
pub use statement::Statement;

#[cfg(test)]
mod tests;
