use crate::sequence::Sequence;
use crate::value::Value;

/// The values of one column, in the order of the rows.
pub type Values = Sequence<Value>;
