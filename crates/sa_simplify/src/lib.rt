//! The simplified form of a condition, from which ranges and access paths are chosen.
#![tactic(auto)]

mod copy;
mod decide;
mod equality;
mod expand;
mod flatten;
mod fold;
mod law;
mod propagate;
mod push;
mod simple;
mod turn;
mod walk;

pub use law::{
    equalities_are_handed_on, simple_is_stable, simple_is_true_alike, simple_is_typed,
    simple_names_no_more,
};
pub use simple::simplify;
