use crate::sequence::Sequence;
use crate::text::Text;

/// A list of texts, as the column names of an answer.
pub type Texts = Sequence<Text>;
