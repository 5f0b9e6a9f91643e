use crate::sequence::Sequence;
use crate::value::Value;

/// The values of one row.
pub type Row = Sequence<Value>;

/// A list of rows.
pub type Rows = Sequence<Row>;
