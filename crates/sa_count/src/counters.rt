/// What a run has done with one table of its plan so far.
///
/// The names follow MariaDB's: Knowledge Base, "ANALYZE FORMAT=JSON" (`r_loops`, `r_rows`).
#[derive(Clone, Copy, Debug, Default, PartialEq, Eq)]
pub struct Counters {
    /// How often the table was opened.
    pub loops: u64,
    /// How many of its rows were read.
    pub rows: u64,
    /// How many of those passed all conditions of the table.
    pub passed: u64,
}
