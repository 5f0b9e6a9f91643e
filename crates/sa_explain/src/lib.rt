//! Plans and runs as documents of JSON: what SHOW EXPLAIN and SHOW ANALYZE answer.
//!
//! MariaDB's Knowledge Base has their keys under "EXPLAIN FORMAT=JSON" and "ANALYZE FORMAT=JSON".
#![tactic(auto)]

mod access;
mod condition;
mod counted;
mod document;
mod leaf;
mod level;
mod tree;
mod value;

pub use document::{analyze_json, plan_json};
pub use value::values_json;
