//! The query that a SELECT stands for over tables, or the fault of it that is told.
//!
//! Names are resolved, what is calculated and compared is of a kind for it, and the rules of grouping
//! and the limits are kept. Of several faults the one at the least place is told.
//! Source of the rules: MariaDB Knowledge Base, "SELECT", "GROUP BY" and "Identifier Qualifiers".
#![tactic(auto)]

mod alias;
mod build;
mod clauses;
mod condition;
mod copy;
mod distinct;
mod ends;
mod facts;
mod fault;
mod from;
mod grouping;
mod judgement;
mod kind;
mod law;
mod least;
mod look;
mod mentions;
mod numbers;
mod query;
mod reach;
mod resolver;
mod scope;
mod select;
mod sight;
mod slots;

pub use fault::ResolveFault;
pub use law::{
    a_filter_is_well_typed, a_select_has_a_query_or_a_fault, a_select_has_one_query,
    a_select_with_a_query_has_no_fault, the_query_of_a_select_is_well_typed,
};
pub use resolver::resolve;
