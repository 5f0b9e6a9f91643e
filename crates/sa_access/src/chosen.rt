use sa_plan::Access;

/// An access that was chosen for a table, and what it is reckoned to cost and to give each time.
#[derive(Debug, Drop)]
pub struct Chosen {
    pub access: Access,
    /// In the units of [`sa_cost`], at most 2^120.
    pub cost: u128,
    /// In rows.
    pub estimate: u64,
}
