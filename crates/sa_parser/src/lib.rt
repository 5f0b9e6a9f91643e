//! The tree of a statement or of a directive out of its tokens, or the first fault in them.
//!
//! The grammar is a relation between tokens and trees. What is read, and which fault is answered where, is proved
//! against it; so the place of a fault is a matter of the language, and not of the way in which it is read.
#![tactic(auto)]

mod answer;
mod canonical;
mod commas;
mod cursor;
mod depth;
mod directive;
mod expression;
mod fault;
mod grammar;
mod judgement;
mod kind;
mod lent;
mod limits;
mod members;
mod parser;
mod part;
mod predicate;
mod primary;
mod rule;
mod select;
mod setup;
mod statement;
mod sum;
mod tail;
mod tree;
mod unique;
mod value;
mod words;

pub use answer::ParseFault;
pub use canonical::canonical_text_is_unique;
pub use parser::{parse, parse_directive, parse_setup};
pub use unique::{tokens_have_an_answer, tokens_have_one_answer, tokens_have_one_tree};
