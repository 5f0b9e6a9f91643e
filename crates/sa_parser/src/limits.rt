/// The numbers of a LIMIT.
#[derive(Clone, Copy, Debug, PartialEq, Eq)]
pub(crate) struct Limits {
    /// How many rows at most.
    pub(crate) limit: u64,
    /// How many rows are passed over before the first.
    pub(crate) offset: u64,
}
