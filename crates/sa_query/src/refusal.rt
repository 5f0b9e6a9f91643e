use sa_lexer::LexKind;

/// Why a statement is refused before it runs. A `place` is a byte of the statement's text.
#[derive(Clone, Copy, Debug, PartialEq, Eq)]
pub enum Refusal {
    /// The text is no row of tokens.
    Lex { kind: LexKind, place: usize },
    /// The tokens are no statement.
    Syntax { place: usize },
    /// MariaDB's grammar may go on so, this engine's doesn't.
    NotSupported { place: usize },
    /// The statement nests too deep.
    TooDeep { place: usize },
    /// A name or a type doesn't fit the tables.
    Resolve { fault: ResolveKind, place: usize },
    /// Memory ran out.
    OutOfMemory,
}

/// What is wrong with a name, a type or a count of a SELECT. Of several faults at one place the first of
/// this list is told.
///
/// Source of the rules: MariaDB Knowledge Base, "SELECT" and "Identifier Qualifiers"; limits are this
/// project's.
#[derive(Clone, Copy, Debug, PartialEq, Eq)]
pub enum ResolveKind {
    /// There is no such table.
    UnknownTable,
    /// No table in sight has such a column.
    UnknownColumn,
    /// Two columns or aliases in sight have the name.
    Ambiguous,
    /// Two tables of FROM have one alias.
    DuplicateAlias,
    /// A text stands where a number has to, or a value where a condition has to, or the other way round.
    TypeMismatch,
    /// Arithmetic could leave the range of BIGINT.
    ExprRange,
    /// A rule of GROUP BY, HAVING, DISTINCT or an aggregate is broken.
    GroupRule,
    /// FROM has a ninth table.
    TooManyTables,
    /// A select list has a 65th item, or GROUP BY or ORDER BY a ninth.
    TooManyItems,
    /// WHERE and ON have 1,025 literals.
    TooManyConstants,
}
