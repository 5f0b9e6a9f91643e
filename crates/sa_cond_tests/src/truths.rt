//! The truth of a condition on the sample.

use crate::line::{cell, is_same};
use sa_sample::{condition, truth};
use sa_value::Truth;
use std::alloc::Global;
use std::process::Abort;

/// Each line of a table: name, condition, truth.
pub(crate) fn each_is(rt: &impl Abort, alloc: Global, table: &str) {
    for line in table.split('\n') {
        is_same(rt, line, truth_of(alloc, cell(line, 1)), cell(line, 2));
    }
}

/// The word for the truth of a condition; none where it is no condition or isn't well-typed.
pub(crate) fn truth_of(alloc: Global, sql: &str) -> &'static str {
    match condition(alloc, sql) {
        Some(cond) => word(truth(&cond)),
        None => "no condition",
    }
}

fn word(truth: Option<Truth>) -> &'static str {
    match truth {
        Some(Truth::True) => "TRUE",
        Some(Truth::Unknown) => "UNKNOWN",
        Some(Truth::False) => "FALSE",
        None => "not well-typed",
    }
}
