//! Worked scripts, with each entry that every journal has to have.
//!
//! A line has the actor, the actor's number of the entry, its turn, and the event.

use crate::tests::script::{QUERY, Script, compare};
use std::alloc::Global;
use std::test::Fail;

/// A request that a point of the run answers.
pub fn served_at_point(alloc: Global) -> Result<(), Fail> {
    let script = Script {
        name: "served at point",
        sessions: &[&[QUERY], &["SHOW ANALYZE FOR 1"]],
        quantum: 4,
        turns: 1_000_000,
        schedule: &[1, 2, 2, 1, 2, 2, 1],
    };
    compare(
        alloc,
        script,
        &[
            "desk 1",
            "1 1 1 Begin 1 planned: SELECT a FROM t WHERE (a >= 2)",
            "2 2 2 Queued { statement: 1, kind: Analyze, at: 0, budget: 1000000 }",
            "1 2 2 Served 2.1: statement 1 steps 4 sent 1 table 1 2 1",
            "2 3 3 Taken { statement: 1 }",
            "1 3 3 End 1 after 6: rows a: 2 3",
            "1 4 4 Close",
            "desk 2",
            "2 1 1 Begin 1 plain: SHOW ANALYZE FOR 1",
            "2 4 4 End 1 after 0: Analyze of 1, begin 1: statement 1 steps 4 sent 1 table 1 2 1",
            "2 5 5 Close",
        ],
    )
}

/// A request that the end of the run answers.
pub fn served_at_end(alloc: Global) -> Result<(), Fail> {
    let script = Script {
        name: "served at end",
        sessions: &[&[QUERY], &["SHOW ANALYZE FOR 1"]],
        quantum: 4,
        turns: 1_000_000,
        schedule: &[1, 1, 2, 2, 1, 2, 2],
    };
    compare(
        alloc,
        script,
        &[
            "desk 1",
            "1 1 1 Begin 1 planned: SELECT a FROM t WHERE (a >= 2)",
            "2 2 2 Queued { statement: 1, kind: Analyze, at: 4, budget: 1000000 }",
            "1 2 3 Served 2.1: statement 1 steps 6 sent 2 table 1 3 2",
            "1 3 3 End 1 after 6: rows a: 2 3",
            "2 3 3 Taken { statement: 1 }",
            "1 4 4 Close",
            "desk 2",
            "2 1 1 Begin 1 plain: SHOW ANALYZE FOR 1",
            "2 4 4 End 1 after 0: Analyze of 1, begin 1: statement 1 steps 6 sent 2 table 1 3 2",
            "2 5 5 Close",
        ],
    )
}

/// Requests to a session between two statements, and to one that has no plan.
pub fn not_explainable(alloc: Global) -> Result<(), Fail> {
    let script = Script {
        name: "not explainable",
        sessions: &[&[QUERY], &["SHOW EXPLAIN FOR 1", "SHOW EXPLAIN FOR 2"]],
        quantum: 64,
        turns: 1_000_000,
        schedule: &[2, 2, 2, 2, 2, 2],
    };
    compare(
        alloc,
        script,
        &[
            "desk 1",
            "2 2 2 Refused { statement: 1, why: NotExplainable }",
            "1 1 1 Begin 1 planned: SELECT a FROM t WHERE (a >= 2)",
            "1 2 2 End 1 after 6: rows a: 2 3",
            "1 3 3 Close",
            "desk 2",
            "2 1 1 Begin 1 plain: SHOW EXPLAIN FOR 1",
            "2 3 3 End 1 after 0: NotExplainable",
            "2 4 4 Begin 2 plain: SHOW EXPLAIN FOR 2",
            "2 5 5 Refused { statement: 2, why: NotExplainable }",
            "2 6 6 End 2 after 0: NotExplainable",
            "2 7 7 Close",
        ],
    )
}

/// A request that is polled as often as it lasts.
pub fn spent(alloc: Global) -> Result<(), Fail> {
    let script = Script {
        name: "spent",
        sessions: &[&[QUERY], &["SHOW ANALYZE FOR 1"]],
        quantum: 4,
        turns: 2,
        schedule: &[1, 2, 2, 2, 2, 2, 2],
    };
    compare(
        alloc,
        script,
        &[
            "desk 1",
            "1 1 1 Begin 1 planned: SELECT a FROM t WHERE (a >= 2)",
            "2 2 2 Queued { statement: 1, kind: Analyze, at: 0, budget: 2 }",
            "2 3 5 Spent { statement: 1, turns: 2 }",
            "1 2 3 End 1 after 6: rows a: 2 3",
            "1 3 4 Close",
            "desk 2",
            "2 1 1 Begin 1 plain: SHOW ANALYZE FOR 1",
            "2 4 6 End 1 after 0: TimedOut { turns: 2 }",
            "2 5 7 Close",
        ],
    )
}

/// Two requests, of which the older one is answered first.
pub fn served_in_order(alloc: Global) -> Result<(), Fail> {
    let script = Script {
        name: "served in order",
        sessions: &[&[QUERY], &["SHOW ANALYZE FOR 1"], &["SHOW ANALYZE FOR 1"]],
        quantum: 4,
        turns: 1_000_000,
        schedule: &[1, 3, 3, 2, 2, 1],
    };
    compare(
        alloc,
        script,
        &[
            "desk 1",
            "1 1 1 Begin 1 planned: SELECT a FROM t WHERE (a >= 2)",
            "3 2 2 Queued { statement: 1, kind: Analyze, at: 0, budget: 1000000 }",
            "2 2 2 Queued { statement: 1, kind: Analyze, at: 0, budget: 1000000 }",
            "1 2 2 Served 3.1: statement 1 steps 4 sent 1 table 1 2 1",
            "1 3 2 Served 2.1: statement 1 steps 4 sent 1 table 1 2 1",
            "1 4 3 End 1 after 6: rows a: 2 3",
            "2 3 3 Taken { statement: 1 }",
            "3 3 3 Taken { statement: 1 }",
            "1 5 4 Close",
            "desk 2",
            "2 1 1 Begin 1 plain: SHOW ANALYZE FOR 1",
            "2 4 4 End 1 after 0: Analyze of 1, begin 1: statement 1 steps 4 sent 1 table 1 2 1",
            "2 5 5 Close",
            "desk 3",
            "3 1 1 Begin 1 plain: SHOW ANALYZE FOR 1",
            "3 4 4 End 1 after 0: Analyze of 1, begin 1: statement 1 steps 4 sent 1 table 1 2 1",
            "3 5 5 Close",
        ],
    )
}

/// A kill of the first of two statements.
pub fn killed_query(alloc: Global) -> Result<(), Fail> {
    let script = Script {
        name: "killed query",
        sessions: &[&[QUERY, QUERY], &["KILL QUERY 1"]],
        quantum: 4,
        turns: 1_000_000,
        schedule: &[1, 1, 2, 2, 1],
    };
    compare(
        alloc,
        script,
        &[
            "desk 1",
            "1 1 1 Begin 1 planned: SELECT a FROM t WHERE (a >= 2)",
            "2 2 2 KillSent { statement: 1, kind: Query }",
            "1 2 3 End 1 after 6: Interrupted",
            "1 3 4 Begin 2 planned: SELECT a FROM t WHERE (a >= 2)",
            "1 4 6 End 2 after 6: rows a: 2 3",
            "1 5 7 Close",
            "desk 2",
            "2 1 1 Begin 1 plain: KILL QUERY 1",
            "2 3 3 End 1 after 0: KillSent",
            "2 4 4 Close",
        ],
    )
}

/// A kill of the session, and requests to it and to one that isn't there.
pub fn killed_connection(alloc: Global) -> Result<(), Fail> {
    let script = Script {
        name: "killed connection",
        sessions: &[
            &[QUERY, QUERY],
            &["KILL 1", "SHOW ANALYZE FOR 1", "SHOW ANALYZE FOR 99"],
        ],
        quantum: 64,
        turns: 1_000_000,
        schedule: &[1, 2, 2, 2, 1, 1, 1],
    };
    compare(
        alloc,
        script,
        &[
            "desk 1",
            "1 1 1 Begin 1 planned: SELECT a FROM t WHERE (a >= 2)",
            "2 2 2 KillSent { statement: 1, kind: Connection }",
            "1 2 2 End 1 after 6: Interrupted",
            "1 3 3 Gone { statement: 2 }",
            "1 4 4 Close",
            "2 5 5 Refused { statement: 2, why: NoSuchThread }",
            "desk 2",
            "2 1 1 Begin 1 plain: KILL CONNECTION 1",
            "2 3 3 End 1 after 0: KillSent",
            "2 4 4 Begin 2 plain: SHOW ANALYZE FOR 1",
            "2 6 6 End 2 after 0: NoSuchThread",
            "2 7 7 Begin 3 plain: SHOW ANALYZE FOR 99",
            "2 8 8 End 3 after 0: NoSuchThread",
            "2 9 9 Close",
        ],
    )
}

/// A request of a session that is killed while it waits.
pub fn withdrawn(alloc: Global) -> Result<(), Fail> {
    let script = Script {
        name: "withdrawn",
        sessions: &[&[QUERY], &["SHOW ANALYZE FOR 1"], &["KILL QUERY 2"]],
        quantum: 4,
        turns: 1_000_000,
        schedule: &[1, 2, 2, 2, 3, 3, 2, 2, 2],
    };
    compare(
        alloc,
        script,
        &[
            "desk 1",
            "1 1 1 Begin 1 planned: SELECT a FROM t WHERE (a >= 2)",
            "2 2 2 Queued { statement: 1, kind: Analyze, at: 0, budget: 1000000 }",
            "2 3 5 Withdrawn { statement: 1 }",
            "1 2 3 End 1 after 6: rows a: 2 3",
            "1 3 4 Close",
            "desk 2",
            "2 1 1 Begin 1 plain: SHOW ANALYZE FOR 1",
            "3 2 2 KillSent { statement: 1, kind: Query }",
            "2 4 6 End 1 after 0: Interrupted",
            "2 5 7 Close",
            "desk 3",
            "3 1 1 Begin 1 plain: KILL QUERY 2",
            "3 3 3 End 1 after 0: KillSent",
            "3 4 4 Close",
        ],
    )
}

/// A kill that reaches a session after its request was answered: the withdrawal takes the answer.
pub fn withdrawn_after_answer(alloc: Global) -> Result<(), Fail> {
    let script = Script {
        name: "withdrawn after answer",
        sessions: &[&[QUERY], &["SHOW ANALYZE FOR 1"], &["KILL QUERY 2"]],
        quantum: 4,
        turns: 1_000_000,
        schedule: &[1, 2, 2, 2, 1, 3, 3, 2, 2, 2],
    };
    compare(
        alloc,
        script,
        &[
            "desk 1",
            "1 1 1 Begin 1 planned: SELECT a FROM t WHERE (a >= 2)",
            "2 2 2 Queued { statement: 1, kind: Analyze, at: 0, budget: 1000000 }",
            "1 2 2 Served 2.1: statement 1 steps 4 sent 1 table 1 2 1",
            "2 3 5 Taken { statement: 1 }",
            "1 3 3 End 1 after 6: rows a: 2 3",
            "1 4 4 Close",
            "desk 2",
            "2 1 1 Begin 1 plain: SHOW ANALYZE FOR 1",
            "3 2 2 KillSent { statement: 1, kind: Query }",
            "2 4 6 End 1 after 0: Interrupted",
            "2 5 7 Close",
            "desk 3",
            "3 1 1 Begin 1 plain: KILL QUERY 2",
            "3 3 3 End 1 after 0: KillSent",
            "3 4 4 Close",
        ],
    )
}

/// A wait that is reached.
pub fn waited(alloc: Global) -> Result<(), Fail> {
    let script = Script {
        name: "waited",
        sessions: &[&[QUERY], &["WAIT FOR 1 AT 4"]],
        quantum: 4,
        turns: 1_000_000,
        schedule: &[1, 2, 2, 1, 2, 2, 2],
    };
    compare(
        alloc,
        script,
        &[
            "desk 1",
            "1 1 1 Begin 1 planned: SELECT a FROM t WHERE (a >= 2)",
            "2 2 4 Waited { statement: 1, steps: 4 }",
            "1 2 3 End 1 after 6: rows a: 2 3",
            "1 3 4 Close",
            "desk 2",
            "2 1 1 Begin 1 plain: WAIT FOR 1 AT 4",
            "2 3 5 End 1 after 0: Waited { steps: 4 }",
            "2 4 6 Close",
        ],
    )
}

/// A wait that looks as often as it lasts.
pub fn wait_spent(alloc: Global) -> Result<(), Fail> {
    let script = Script {
        name: "wait spent",
        sessions: &[&[QUERY], &["WAIT FOR 1 AT 4"]],
        quantum: 4,
        turns: 2,
        schedule: &[1, 2, 2, 2, 2, 2],
    };
    compare(
        alloc,
        script,
        &[
            "desk 1",
            "1 1 1 Begin 1 planned: SELECT a FROM t WHERE (a >= 2)",
            "2 2 4 WaitSpent { statement: 1, steps: 0, turns: 2 }",
            "1 2 3 End 1 after 6: rows a: 2 3",
            "1 3 4 Close",
            "desk 2",
            "2 1 1 Begin 1 plain: WAIT FOR 1 AT 4",
            "2 3 5 End 1 after 0: WaitSpent { steps: 0, turns: 2 }",
            "2 4 6 Close",
        ],
    )
}

/// A wait that one step more would have ended.
pub fn wait_short(alloc: Global) -> Result<(), Fail> {
    let script = Script {
        name: "wait short",
        sessions: &[&[QUERY], &["WAIT FOR 1 AT 5"]],
        quantum: 4,
        turns: 2,
        schedule: &[1, 2, 1, 2, 2, 2, 2],
    };
    compare(
        alloc,
        script,
        &[
            "desk 1",
            "1 1 1 Begin 1 planned: SELECT a FROM t WHERE (a >= 2)",
            "2 2 4 WaitSpent { statement: 1, steps: 4, turns: 2 }",
            "1 2 3 End 1 after 6: rows a: 2 3",
            "1 3 4 Close",
            "desk 2",
            "2 1 1 Begin 1 plain: WAIT FOR 1 AT 5",
            "2 3 5 End 1 after 0: WaitSpent { steps: 4, turns: 2 }",
            "2 4 6 Close",
        ],
    )
}

/// A kill of a wait, and a wait for a session that is done.
pub fn wait_killed(alloc: Global) -> Result<(), Fail> {
    let script = Script {
        name: "wait killed",
        sessions: &[
            &[QUERY],
            &["WAIT FOR 1 AT 4", "WAIT FOR 1 AT 4"],
            &["KILL QUERY 2"],
        ],
        quantum: 4,
        turns: 1_000_000,
        schedule: &[1, 2, 2, 3, 3, 2, 2, 1, 1, 1],
    };
    compare(
        alloc,
        script,
        &[
            "desk 1",
            "1 1 1 Begin 1 planned: SELECT a FROM t WHERE (a >= 2)",
            "1 2 3 End 1 after 6: rows a: 2 3",
            "1 3 4 Close",
            "2 4 6 Refused { statement: 2, why: NoSuchThread }",
            "desk 2",
            "2 1 1 Begin 1 plain: WAIT FOR 1 AT 4",
            "3 2 2 KillSent { statement: 1, kind: Query }",
            "2 2 4 End 1 after 0: Interrupted",
            "2 3 5 Begin 2 plain: WAIT FOR 1 AT 4",
            "2 5 7 End 2 after 0: NoSuchThread",
            "2 6 8 Close",
            "desk 3",
            "3 1 1 Begin 1 plain: KILL QUERY 2",
            "3 3 3 End 1 after 0: KillSent",
            "3 4 4 Close",
        ],
    )
}

/// Two statements of one session after another, and a request to each.
pub fn two_statements(alloc: Global) -> Result<(), Fail> {
    let script = Script {
        name: "two statements",
        sessions: &[
            &[QUERY, QUERY],
            &["SHOW ANALYZE FOR 1", "SHOW EXPLAIN FOR 1"],
        ],
        quantum: 4,
        turns: 1_000_000,
        schedule: &[1, 2, 2, 1, 2, 2, 1, 1, 2, 2, 1, 2, 2],
    };
    compare(
        alloc,
        script,
        &[
            "desk 1",
            "1 1 1 Begin 1 planned: SELECT a FROM t WHERE (a >= 2)",
            "2 2 2 Queued { statement: 1, kind: Analyze, at: 0, budget: 1000000 }",
            "1 2 2 Served 2.1: statement 1 steps 4 sent 1 table 1 2 1",
            "2 3 3 Taken { statement: 1 }",
            "1 3 3 End 1 after 6: rows a: 2 3",
            "1 4 4 Begin 2 planned: SELECT a FROM t WHERE (a >= 2)",
            "2 6 6 Queued { statement: 2, kind: Explain, at: 0, budget: 1000000 }",
            "1 5 5 Served 2.2: statement 2 steps 4 sent 1 table 1 2 1",
            "2 7 7 Taken { statement: 2 }",
            "1 6 6 End 2 after 6: rows a: 2 3",
            "1 7 7 Close",
            "desk 2",
            "2 1 1 Begin 1 plain: SHOW ANALYZE FOR 1",
            "2 4 4 End 1 after 0: Analyze of 1, begin 1: statement 1 steps 4 sent 1 table 1 2 1",
            "2 5 5 Begin 2 plain: SHOW EXPLAIN FOR 1",
            "2 8 8 End 2 after 0: Explain of 1, begin 4: statement 2 steps 4 sent 1 table 1 2 1",
            "2 9 9 Close",
        ],
    )
}

/// A SET before the query, a request to each, and a session that kills itself.
pub fn set_first(alloc: Global) -> Result<(), Fail> {
    let script = Script {
        name: "set first",
        sessions: &[
            &[
                "SET max_row_steps = 6",
                QUERY,
                "KILL 1",
                "SET max_row_steps = 6",
            ],
            &["SHOW ANALYZE FOR 1"],
        ],
        quantum: 64,
        turns: 1_000_000,
        schedule: &[1, 2, 2, 2, 1, 1, 1, 1, 1, 1, 1],
    };
    compare(
        alloc,
        script,
        &[
            "desk 1",
            "1 1 1 Begin 1 plain: SET max_row_steps = 6",
            "2 2 2 Refused { statement: 1, why: NotExplainable }",
            "1 2 2 End 1 after 0: Set",
            "1 3 3 Begin 2 planned: SELECT a FROM t WHERE (a >= 2)",
            "1 4 4 End 2 after 6: rows a: 2 3",
            "1 5 5 Begin 3 plain: KILL CONNECTION 1",
            "1 6 6 KillSent { statement: 3, kind: Connection }",
            "1 7 7 End 3 after 0: Interrupted",
            "1 8 8 Gone { statement: 4 }",
            "1 9 9 Close",
            "desk 2",
            "2 1 1 Begin 1 plain: SHOW ANALYZE FOR 1",
            "2 3 3 End 1 after 0: NotExplainable",
            "2 4 4 Close",
        ],
    )
}
