use sa_value::Text;
use sqlite_items::Items;

/// A name as it is meant, without its quotes.
#[derive(Debug, Drop)]
pub struct NameTree {
    pub name: Text,
    /// Where it begins in the text of the statement.
    pub place: usize,
}

/// A list of names.
pub type NameTrees = Items<NameTree>;
