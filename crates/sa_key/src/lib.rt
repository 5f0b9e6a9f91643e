//! Keys: the values of a key's parts, the cuts between such tuples, and the order of both.
//!
//! Indexes and ranges stand on these types.
#![tactic(auto)]

mod cut;
mod key_ref;
mod key_tuple;
mod law;
mod order;
mod range;

pub use cut::{Cut, CutRef, Side};
pub use key_ref::KeyRef;
pub use key_tuple::KeyTuple;
pub use law::{
    before_goes_down, before_goes_up, canonical_form_has_the_same_before,
    canonical_form_is_canonical, equal_part_by_part, order_of_cuts_is_total,
    order_of_tuples_is_total, tuple_lies_where_its_cut_lies,
};
pub use order::{before_cut, order_cuts, order_tuples};
pub use range::{KeyRange, KeyRanges};

#[cfg(test)]
mod tests;
