//! What the turns of scripts answer.

use crate::tests::script::{QUERY, Script, compare_answers};
use std::alloc::Global;
use std::test::Fail;

/// Session 2 begins, asks, polls, looks for a kill, polls once too often, ends and closes.
pub fn spent(alloc: Global) -> Result<(), Fail> {
    let script = Script {
        name: "spent",
        sessions: &[&[QUERY], &["SHOW ANALYZE FOR 1"]],
        quantum: 4,
        turns: 2,
        schedule: &[1, 2, 2, 2, 2, 2, 2],
    };
    compare_answers(alloc, script, &["...d", "..w...d"])
}

/// Session 2 begins, asks, polls, sees a kill, withdraws, ends and closes.
pub fn withdrawn(alloc: Global) -> Result<(), Fail> {
    let script = Script {
        name: "withdrawn",
        sessions: &[&[QUERY], &["SHOW ANALYZE FOR 1"], &["KILL QUERY 2"]],
        quantum: 4,
        turns: 1_000_000,
        schedule: &[1, 2, 2, 2, 3, 3, 2, 2, 2],
    };
    compare_answers(alloc, script, &["...d", "..w...d", "...d"])
}

/// Session 2 begins, looks, looks for a kill, looks once too often, ends and closes.
pub fn wait_spent(alloc: Global) -> Result<(), Fail> {
    let script = Script {
        name: "wait spent",
        sessions: &[&[QUERY], &["WAIT FOR 1 AT 4"]],
        quantum: 4,
        turns: 2,
        schedule: &[1, 2, 2, 2, 2, 2],
    };
    compare_answers(alloc, script, &["...d", ".w...d"])
}
