//! Scripts of one kind of statement each.

use crate::tests::script::{QUERY, Script, compare};
use std::alloc::Global;
use std::test::Fail;

/// A query alone.
pub fn query(alloc: Global) -> Result<(), Fail> {
    let script = Script {
        name: "query",
        sessions: &[&[QUERY]],
        quantum: 64,
        turns: 1_000_000,
        schedule: &[],
    };
    compare(
        alloc,
        script,
        &[
            "desk 1",
            "1 1 1 Begin 1 planned: SELECT a FROM t WHERE (a >= 2)",
            "1 2 2 End 1 after 6: rows a: 2 3",
            "1 3 3 Close",
        ],
    )
}

/// No statement at all.
pub fn nothing(alloc: Global) -> Result<(), Fail> {
    let script = Script {
        name: "nothing",
        sessions: &[&[]],
        quantum: 64,
        turns: 1_000_000,
        schedule: &[],
    };
    compare(alloc, script, &["desk 1", "1 1 1 Close"])
}

/// Each statement has the step limit of the last SET before it.
pub fn limits(alloc: Global) -> Result<(), Fail> {
    let script = Script {
        name: "limits",
        sessions: &[&[
            "SET max_row_steps = 6",
            QUERY,
            "SET max_row_steps = 5",
            QUERY,
        ]],
        quantum: 64,
        turns: 1_000_000,
        schedule: &[],
    };
    compare(
        alloc,
        script,
        &[
            "desk 1",
            "1 1 1 Begin 1 plain: SET max_row_steps = 6",
            "1 2 2 End 1 after 0: Set",
            "1 3 3 Begin 2 planned: SELECT a FROM t WHERE (a >= 2)",
            "1 4 4 End 2 after 6: rows a: 2 3",
            "1 5 5 Begin 3 plain: SET max_row_steps = 5",
            "1 6 6 End 3 after 0: Set",
            "1 7 7 Begin 4 planned: SELECT a FROM t WHERE (a >= 2)",
            "1 8 8 End 4 after 5: RowLimit",
            "1 9 9 Close",
        ],
    )
}

/// A limit that is a whole quantum is met in the turn after it, and one that isn't in its own turn.
pub fn limits_by_turns(alloc: Global) -> Result<(), Fail> {
    let script = Script {
        name: "limits by turns",
        sessions: &[&[
            "SET max_row_steps = 4",
            QUERY,
            "SET max_row_steps = 5",
            "ANALYZE SELECT a FROM t WHERE a >= 2",
        ]],
        quantum: 4,
        turns: 1_000_000,
        schedule: &[],
    };
    compare(
        alloc,
        script,
        &[
            "desk 1",
            "1 1 1 Begin 1 plain: SET max_row_steps = 4",
            "1 2 2 End 1 after 0: Set",
            "1 3 3 Begin 2 planned: SELECT a FROM t WHERE (a >= 2)",
            "1 4 5 End 2 after 4: RowLimit",
            "1 5 6 Begin 3 plain: SET max_row_steps = 5",
            "1 6 7 End 3 after 0: Set",
            "1 7 8 Begin 4 planned: ANALYZE SELECT a FROM t WHERE (a >= 2)",
            "1 8 10 End 4 after 5: RowLimit",
            "1 9 11 Close",
        ],
    )
}

/// A run whose last item ends a quantum is ended in that turn.
pub fn whole_quantum(alloc: Global) -> Result<(), Fail> {
    let script = Script {
        name: "whole quantum",
        sessions: &[&[QUERY]],
        quantum: 3,
        turns: 1_000_000,
        schedule: &[],
    };
    compare(
        alloc,
        script,
        &[
            "desk 1",
            "1 1 1 Begin 1 planned: SELECT a FROM t WHERE (a >= 2)",
            "1 2 3 End 1 after 6: rows a: 2 3",
            "1 3 4 Close",
        ],
    )
}

/// A SET that is killed doesn't hold.
pub fn killed_set(alloc: Global) -> Result<(), Fail> {
    let script = Script {
        name: "killed set",
        sessions: &[&["SET max_row_steps = 4", QUERY], &["KILL QUERY 1"]],
        quantum: 64,
        turns: 1_000_000,
        schedule: &[1, 2, 2, 1, 1, 1, 1],
    };
    compare(
        alloc,
        script,
        &[
            "desk 1",
            "1 1 1 Begin 1 plain: SET max_row_steps = 4",
            "2 2 2 KillSent { statement: 1, kind: Query }",
            "1 2 2 End 1 after 0: Interrupted",
            "1 3 3 Begin 2 planned: SELECT a FROM t WHERE (a >= 2)",
            "1 4 4 End 2 after 6: rows a: 2 3",
            "1 5 5 Close",
            "desk 2",
            "2 1 1 Begin 1 plain: KILL QUERY 1",
            "2 3 3 End 1 after 0: KillSent",
            "2 4 4 Close",
        ],
    )
}

/// Statements that preparation refuses, and one for which memory ran out, begin with the source
/// text.
pub fn refused(alloc: Global) -> Result<(), Fail> {
    let script = Script {
        name: "refused",
        sessions: &[&["SELECT a FROM", "SELECT b FROM t", "SELECT 'a", "no memory"]],
        quantum: 64,
        turns: 1_000_000,
        schedule: &[],
    };
    compare(
        alloc,
        script,
        &[
            "desk 1",
            "1 1 1 Begin 1 plain: SELECT a FROM",
            "1 2 2 End 1 after 0: Refused(Syntax { place: 13 })",
            "1 3 3 Begin 2 plain: SELECT b FROM t",
            "1 4 4 End 2 after 0: Refused(Resolve { fault: UnknownColumn, place: 7 })",
            "1 5 5 Begin 3 plain: SELECT 'a",
            "1 6 6 End 3 after 0: Refused(Lex { kind: OpenText, place: 7 })",
            "1 7 7 Begin 4 plain: no memory",
            "1 8 8 End 4 after 0: OutOfMemory",
            "1 9 9 Close",
        ],
    )
}

/// EXPLAIN, ANALYZE, and the statements of the optimizer trace.
pub fn explained(alloc: Global) -> Result<(), Fail> {
    let script = Script {
        name: "explained",
        sessions: &[&[
            "SET optimizer_trace = 'enabled=on'",
            "EXPLAIN SELECT a FROM t WHERE a >= 2",
            "ANALYZE SELECT a FROM t WHERE a >= 2",
            "SELECT * FROM information_schema.optimizer_trace",
            "SET optimizer_trace = 'enabled=off'",
        ]],
        quantum: 4,
        turns: 1_000_000,
        schedule: &[],
    };
    compare(
        alloc,
        script,
        &[
            "desk 1",
            "1 1 1 Begin 1 plain: SET optimizer_trace = 'enabled=on'",
            "1 2 2 End 1 after 0: Set",
            "1 3 3 Begin 2 plain: EXPLAIN SELECT a FROM t WHERE (a >= 2)",
            "1 4 4 End 2 after 0: PlanShown",
            "1 5 5 Begin 3 planned: ANALYZE SELECT a FROM t WHERE (a >= 2)",
            "1 6 7 End 3 after 6: Analyzed: statement 3 steps 6 sent 2 table 1 3 2",
            "1 7 8 Begin 4 plain: SELECT * FROM information_schema.optimizer_trace",
            "1 8 9 End 4 after 0: Trace { document: None }",
            "1 9 10 Begin 5 plain: SET optimizer_trace = 'enabled=off'",
            "1 10 11 End 5 after 0: Set",
            "1 11 12 Close",
        ],
    )
}

/// Numbers of sessions that the script hasn't. The third is that of session 1 and 2^32.
pub fn no_such_session(alloc: Global) -> Result<(), Fail> {
    let script = Script {
        name: "no such session",
        sessions: &[&[
            "SHOW ANALYZE FOR 99",
            "SHOW ANALYZE FOR 0",
            "KILL 4294967297",
            "WAIT FOR 9 AT 1",
        ]],
        quantum: 64,
        turns: 1_000_000,
        schedule: &[],
    };
    compare(
        alloc,
        script,
        &[
            "desk 1",
            "1 1 1 Begin 1 plain: SHOW ANALYZE FOR 99",
            "1 2 2 End 1 after 0: NoSuchThread",
            "1 3 3 Begin 2 plain: SHOW ANALYZE FOR 0",
            "1 4 4 End 2 after 0: NoSuchThread",
            "1 5 5 Begin 3 plain: KILL CONNECTION 4294967297",
            "1 6 6 End 3 after 0: NoSuchThread",
            "1 7 7 Begin 4 plain: WAIT FOR 9 AT 1",
            "1 8 8 End 4 after 0: NoSuchThread",
            "1 9 9 Close",
        ],
    )
}
