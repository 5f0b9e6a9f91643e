use sa_key::KeyRanges;

/// The ranges of a key that a condition leaves, over so many of its first parts.
#[derive(Debug, Drop)]
pub struct RangeList {
    pub parts: u32,
    /// They rise, are disjoint and never touch.
    pub ranges: KeyRanges,
}
