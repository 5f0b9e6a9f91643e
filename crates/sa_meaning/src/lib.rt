//! What a run of a plan does, item by item, what it counts, and which rows it gives.
//!
//! The executor meets these definitions, and the session machine speaks of a run through them alone,
//! by the trait `Running`.
#![tactic(auto)]

mod running;

pub use running::Running;
