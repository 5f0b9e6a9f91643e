ghost use Rattle.std.specs.Prelude.{◌≡◌};
ghost use Rattle.sa_plan.specs.Access.{key_of, kind_of};

use sa_interval::RangeList;
use sa_value::{Sequence, Value};

/// Which rows of its table a level reads, and in which order. Keys are named by their numbers in the
/// table.
///
/// Source of the names: MariaDB Knowledge Base, "EXPLAIN", its column `type`.
#[derive(Debug, Drop)]
pub enum Access {
    /// All rows, by their numbers.
    All,
    /// All rows, in the order of a key.
    Index { key: u32 },
    /// The rows in one of some ranges of a key, in its order.
    Range { key: u32, list: RangeList },
    /// The rows whose first parts of a key have these values.
    Ref { key: u32, from: RefParts },
    /// The one row, at most, whose parts of a unique key have these values.
    EqRef { key: u32, from: RefParts },
    /// The same, where all of them are literals.
    Const { key: u32, from: RefParts },
}

/// What a part of a key is to be equal to.
#[derive(Debug, Drop)]
pub enum RefPart {
    Literal(Value),
    /// A column of a table of a level before, by the table's position in FROM.
    Column { table: u32, column: u32 },
}

/// What the first parts of a key are to be equal to, in order.
pub type RefParts = Sequence<RefPart>;

/// The kinds of accesses.
#[derive(Clone, Copy, Debug, PartialEq, Eq)]
pub enum AccessKind {
    All,
    Index,
    Range,
    Ref,
    EqRef,
    Const,
}

/// The ranges that a condition leaves of each key of a table, by the key's number.
pub type TableRanges = Sequence<RangeList>;

/// Those of each table of FROM, by its position.
pub type RangeLists = Sequence<TableRanges>;

impl Access {
    /// The kind of the access.
    pub fn kind(&self) -> AccessKind
        ensures { result ≡ kind_of self.now }
    {
        match self {
            Access::All => AccessKind::All,
            Access::Index { .. } => AccessKind::Index,
            Access::Range { .. } => AccessKind::Range,
            Access::Ref { .. } => AccessKind::Ref,
            Access::EqRef { .. } => AccessKind::EqRef,
            Access::Const { .. } => AccessKind::Const,
        }
    }

    /// The number of the key that it reads by; None for ALL.
    pub fn key(&self) -> Option<u32>
        ensures { result ≡ key_of self.now }
    {
        match self {
            Access::All => None,
            Access::Index { key }
            | Access::Range { key, .. }
            | Access::Ref { key, .. }
            | Access::EqRef { key, .. }
            | Access::Const { key, .. } => Some(*key),
        }
    }
}
