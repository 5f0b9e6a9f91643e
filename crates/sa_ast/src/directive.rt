use crate::name::NameTree;
use sqlite_items::Items;

/// A number as it is written.
#[derive(Debug, Drop)]
pub struct NumberTree {
    pub number: u128,
    /// Where it begins in the text of the directive.
    pub place: usize,
}

/// A list of numbers.
pub type NumberTrees = Items<NumberTree>;

/// What a script says besides its statements. Directives are this product's own.
#[derive(Debug, Drop)]
pub enum Directive {
    /// `QUANTUM n`: how many row steps a turn makes at most.
    Quantum(NumberTree),
    /// `TURNS n`: how many turns are played at most.
    Turns(NumberTree),
    /// `LOAD DATA t BYTES n`: rows for a table, in the block of bytes that follows.
    Load { table: NameTree, bytes: NumberTree },
    /// `SESSION n`: the statements of this session follow.
    Session(NumberTree),
    /// `SCHEDULE n n ..`: which session has each turn, one number at least.
    Schedule(NumberTrees),
}
