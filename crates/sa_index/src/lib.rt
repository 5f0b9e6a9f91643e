//! Indexes: the rows of a table in the order of a key, and where a cut lies between them.
//!
//! Access paths and the order of tables are chosen by them, and cursors read through them.
#![tactic(auto)]

mod columns;
mod entries;
mod index;
mod law;
mod list_index;
mod shelf;

pub use index::Index;
pub use law::entries_are_the_rows_in_order;
pub use list_index::ListIndex;
pub use shelf::Shelf;
