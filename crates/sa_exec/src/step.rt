/// Whether a run has items left after a step.
#[derive(Clone, Copy, Debug, PartialEq, Eq)]
pub enum Step {
    /// Another step can be made.
    More,
    /// That was the last item.
    Finished,
}

/// Why a step makes no item. The run makes none any more then.
#[derive(Clone, Copy, Debug, PartialEq, Eq)]
pub enum StepFault {
    /// The run has made as many steps as it may.
    RowLimit,
    /// The run keeps 65,536 rows, and the item would give one more.
    TooManyRows,
    /// Memory ran out for the row of an emit.
    OutOfMemory,
}
