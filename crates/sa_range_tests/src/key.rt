//! Keys, as the names of their columns.

use sa_value::OutOfMemory;
use std::alloc::Global;

/// The table that has a key's columns.
pub(crate) fn table_of(names: &str) -> u32 {
    match names.split(',').next() {
        Some("c" | "t" | "u") => 1,
        _ => 0,
    }
}

/// The numbers of a key's columns.
pub(crate) fn columns(alloc: Global, names: &str) -> Result<Vec<u32>, OutOfMemory> {
    let mut columns = Vec::new(alloc);
    if names != "none" {
        for name in names.split(',') {
            columns.push(column(name.trim()))?;
        }
    }
    Ok(columns)
}

fn column(name: &str) -> u32 {
    match name {
        "a" | "c" => 0,
        "b" | "t" => 1,
        "n" | "u" => 2,
        _ => 3,
    }
}
