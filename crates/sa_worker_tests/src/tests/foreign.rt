//! A foreign call after every turn of a query: what it meets, and how both sessions end.
//!
//! A turn makes two steps. So the query begins in its turn 1, publishes 2 and 4 steps in the turns
//! 2 and 3, ends after its six steps in turn 4, and its session closes in turn 5.

use crate::tests::script::{QUERY, Script, compare};
use std::alloc::Global;
use std::test::Fail;

/// The call of session 2, and when it is made.
#[derive(Clone, Copy, Debug)]
struct Foreign {
    name: &'static str,
    /// The statements of both sessions.
    sessions: &'static [&'static [&'static str]],
    /// How many turns the query's session has taken before.
    after: u32,
    /// How many turns session 2 takes then.
    calls: u32,
    /// How many turns a request lasts.
    lasts: u64,
}

impl Foreign {
    /// Plays the script, and compares its journals.
    fn compare(self, alloc: Global, expected: &[&str]) -> Result<(), Fail> {
        let schedule = schedule_of(alloc, self.after, self.calls)?;
        compare_played(
            alloc,
            self.name,
            self.sessions,
            self.lasts,
            &schedule,
            expected,
        )
    }
}

/// Session 2 begins its statement first.
fn schedule_of(alloc: Global, after: u32, calls: u32) -> Result<Vec<u32>, Fail> {
    let mut schedule = Vec::new(alloc);
    schedule.push(2)?;
    for _ in 0..after {
        schedule.push(1)?;
    }
    for _ in 0..calls {
        schedule.push(2)?;
    }
    for _ in 0..5 {
        schedule.push(1)?;
    }
    Ok(schedule)
}

/// Plays a script with two steps a turn, and compares its journals.
fn compare_played<'a>(
    alloc: Global,
    name: &'a str,
    sessions: &'a [&'a [&'a str]],
    turns: u64,
    schedule: &'a [u32],
    expected: &[&str],
) -> Result<(), Fail> {
    let script = Script {
        name,
        sessions,
        quantum: 2,
        turns,
        schedule,
    };
    compare(alloc, script, expected)
}

/// KILL QUERY, after so many turns.
fn kill_query(after: u32) -> Foreign {
    Foreign {
        name: "KILL QUERY",
        sessions: &[&[QUERY], &["KILL QUERY 1"]],
        after,
        calls: 1,
        lasts: 1_000_000,
    }
}

/// KILL, after so many turns.
fn kill(after: u32) -> Foreign {
    Foreign {
        name: "KILL",
        sessions: &[&[QUERY], &["KILL 1"]],
        after,
        calls: 1,
        lasts: 1_000_000,
    }
}

/// SHOW ANALYZE, after so many turns. It asks.
fn show(after: u32) -> Foreign {
    Foreign {
        name: "SHOW ANALYZE",
        sessions: &[&[QUERY], &["SHOW ANALYZE FOR 1"]],
        after,
        calls: 1,
        lasts: 1_000_000,
    }
}

/// SHOW ANALYZE, after so many turns, where a request lasts one turn. It asks and polls.
fn show_once(after: u32) -> Foreign {
    Foreign {
        calls: 2,
        lasts: 1,
        ..show(after)
    }
}

/// KILL QUERY before the query begins.
pub fn kill_query_before_the_begin(alloc: Global) -> Result<(), Fail> {
    kill_query(0).compare(
        alloc,
        &[
            "desk 1",
            "2 2 2 KillSent { statement: 1, kind: Query }",
            "1 1 1 Begin 1 planned: SELECT a FROM t WHERE (a >= 2)",
            "1 2 4 End 1 after 6: rows a: 2 3",
            "1 3 5 Close",
            "desk 2",
            "2 1 1 Begin 1 plain: KILL QUERY 1",
            "2 3 3 End 1 after 0: KillSent",
            "2 4 4 Close",
        ],
    )
}

/// KILL QUERY after it began.
pub fn kill_query_after_the_begin(alloc: Global) -> Result<(), Fail> {
    kill_query(1).compare(
        alloc,
        &[
            "desk 1",
            "1 1 1 Begin 1 planned: SELECT a FROM t WHERE (a >= 2)",
            "2 2 2 KillSent { statement: 1, kind: Query }",
            "1 2 3 End 1 after 2: Interrupted",
            "1 3 4 Close",
            "desk 2",
            "2 1 1 Begin 1 plain: KILL QUERY 1",
            "2 3 3 End 1 after 0: KillSent",
            "2 4 4 Close",
        ],
    )
}

/// KILL QUERY after it published two steps.
pub fn kill_query_after_two_steps(alloc: Global) -> Result<(), Fail> {
    kill_query(2).compare(
        alloc,
        &[
            "desk 1",
            "1 1 1 Begin 1 planned: SELECT a FROM t WHERE (a >= 2)",
            "2 2 2 KillSent { statement: 1, kind: Query }",
            "1 2 4 End 1 after 4: Interrupted",
            "1 3 5 Close",
            "desk 2",
            "2 1 1 Begin 1 plain: KILL QUERY 1",
            "2 3 3 End 1 after 0: KillSent",
            "2 4 4 Close",
        ],
    )
}

/// KILL QUERY after it published four steps.
pub fn kill_query_after_four_steps(alloc: Global) -> Result<(), Fail> {
    kill_query(3).compare(
        alloc,
        &[
            "desk 1",
            "1 1 1 Begin 1 planned: SELECT a FROM t WHERE (a >= 2)",
            "2 2 2 KillSent { statement: 1, kind: Query }",
            "1 2 4 End 1 after 6: Interrupted",
            "1 3 5 Close",
            "desk 2",
            "2 1 1 Begin 1 plain: KILL QUERY 1",
            "2 3 3 End 1 after 0: KillSent",
            "2 4 4 Close",
        ],
    )
}

/// KILL QUERY after it ended.
pub fn kill_query_after_the_end(alloc: Global) -> Result<(), Fail> {
    kill_query(4).compare(
        alloc,
        &[
            "desk 1",
            "1 1 1 Begin 1 planned: SELECT a FROM t WHERE (a >= 2)",
            "1 2 4 End 1 after 6: rows a: 2 3",
            "2 2 2 KillSent { statement: 1, kind: Query }",
            "1 3 5 Close",
            "desk 2",
            "2 1 1 Begin 1 plain: KILL QUERY 1",
            "2 3 3 End 1 after 0: KillSent",
            "2 4 4 Close",
        ],
    )
}

/// KILL QUERY after its session closed.
pub fn kill_query_after_the_close(alloc: Global) -> Result<(), Fail> {
    kill_query(5).compare(
        alloc,
        &[
            "desk 1",
            "1 1 1 Begin 1 planned: SELECT a FROM t WHERE (a >= 2)",
            "1 2 4 End 1 after 6: rows a: 2 3",
            "1 3 5 Close",
            "2 2 2 Refused { statement: 1, why: NoSuchThread }",
            "desk 2",
            "2 1 1 Begin 1 plain: KILL QUERY 1",
            "2 3 3 End 1 after 0: NoSuchThread",
            "2 4 4 Close",
        ],
    )
}

/// KILL before the query begins.
pub fn kill_before_the_begin(alloc: Global) -> Result<(), Fail> {
    kill(0).compare(
        alloc,
        &[
            "desk 1",
            "2 2 2 KillSent { statement: 1, kind: Connection }",
            "1 1 1 Gone { statement: 1 }",
            "1 2 2 Close",
            "desk 2",
            "2 1 1 Begin 1 plain: KILL CONNECTION 1",
            "2 3 3 End 1 after 0: KillSent",
            "2 4 4 Close",
        ],
    )
}

/// KILL after it began.
pub fn kill_after_the_begin(alloc: Global) -> Result<(), Fail> {
    kill(1).compare(
        alloc,
        &[
            "desk 1",
            "1 1 1 Begin 1 planned: SELECT a FROM t WHERE (a >= 2)",
            "2 2 2 KillSent { statement: 1, kind: Connection }",
            "1 2 3 End 1 after 2: Interrupted",
            "1 3 4 Close",
            "desk 2",
            "2 1 1 Begin 1 plain: KILL CONNECTION 1",
            "2 3 3 End 1 after 0: KillSent",
            "2 4 4 Close",
        ],
    )
}

/// KILL after it published two steps.
pub fn kill_after_two_steps(alloc: Global) -> Result<(), Fail> {
    kill(2).compare(
        alloc,
        &[
            "desk 1",
            "1 1 1 Begin 1 planned: SELECT a FROM t WHERE (a >= 2)",
            "2 2 2 KillSent { statement: 1, kind: Connection }",
            "1 2 4 End 1 after 4: Interrupted",
            "1 3 5 Close",
            "desk 2",
            "2 1 1 Begin 1 plain: KILL CONNECTION 1",
            "2 3 3 End 1 after 0: KillSent",
            "2 4 4 Close",
        ],
    )
}

/// KILL after it published four steps.
pub fn kill_after_four_steps(alloc: Global) -> Result<(), Fail> {
    kill(3).compare(
        alloc,
        &[
            "desk 1",
            "1 1 1 Begin 1 planned: SELECT a FROM t WHERE (a >= 2)",
            "2 2 2 KillSent { statement: 1, kind: Connection }",
            "1 2 4 End 1 after 6: Interrupted",
            "1 3 5 Close",
            "desk 2",
            "2 1 1 Begin 1 plain: KILL CONNECTION 1",
            "2 3 3 End 1 after 0: KillSent",
            "2 4 4 Close",
        ],
    )
}

/// KILL after it ended.
pub fn kill_after_the_end(alloc: Global) -> Result<(), Fail> {
    kill(4).compare(
        alloc,
        &[
            "desk 1",
            "1 1 1 Begin 1 planned: SELECT a FROM t WHERE (a >= 2)",
            "1 2 4 End 1 after 6: rows a: 2 3",
            "2 2 2 KillSent { statement: 1, kind: Connection }",
            "1 3 5 Close",
            "desk 2",
            "2 1 1 Begin 1 plain: KILL CONNECTION 1",
            "2 3 3 End 1 after 0: KillSent",
            "2 4 4 Close",
        ],
    )
}

/// KILL after its session closed.
pub fn kill_after_the_close(alloc: Global) -> Result<(), Fail> {
    kill(5).compare(
        alloc,
        &[
            "desk 1",
            "1 1 1 Begin 1 planned: SELECT a FROM t WHERE (a >= 2)",
            "1 2 4 End 1 after 6: rows a: 2 3",
            "1 3 5 Close",
            "2 2 2 Refused { statement: 1, why: NoSuchThread }",
            "desk 2",
            "2 1 1 Begin 1 plain: KILL CONNECTION 1",
            "2 3 3 End 1 after 0: NoSuchThread",
            "2 4 4 Close",
        ],
    )
}

/// SHOW ANALYZE before the query begins.
pub fn show_before_the_begin(alloc: Global) -> Result<(), Fail> {
    show(0).compare(
        alloc,
        &[
            "desk 1",
            "2 2 2 Refused { statement: 1, why: NotExplainable }",
            "1 1 1 Begin 1 planned: SELECT a FROM t WHERE (a >= 2)",
            "1 2 4 End 1 after 6: rows a: 2 3",
            "1 3 5 Close",
            "desk 2",
            "2 1 1 Begin 1 plain: SHOW ANALYZE FOR 1",
            "2 3 3 End 1 after 0: NotExplainable",
            "2 4 4 Close",
        ],
    )
}

/// SHOW ANALYZE after it began.
pub fn show_after_the_begin(alloc: Global) -> Result<(), Fail> {
    show(1).compare(
        alloc,
        &[
            "desk 1",
            "1 1 1 Begin 1 planned: SELECT a FROM t WHERE (a >= 2)",
            "2 2 2 Queued { statement: 1, kind: Analyze, at: 0, budget: 1000000 }",
            "1 2 2 Served 2.1: statement 1 steps 2 sent 0 table 1 1 0",
            "1 3 4 End 1 after 6: rows a: 2 3",
            "1 4 5 Close",
            "2 3 3 Taken { statement: 1 }",
            "desk 2",
            "2 1 1 Begin 1 plain: SHOW ANALYZE FOR 1",
            "2 4 4 End 1 after 0: Analyze of 1, begin 1: statement 1 steps 2 sent 0 table 1 1 0",
            "2 5 5 Close",
        ],
    )
}

/// SHOW ANALYZE after it published two steps.
pub fn show_after_two_steps(alloc: Global) -> Result<(), Fail> {
    show(2).compare(
        alloc,
        &[
            "desk 1",
            "1 1 1 Begin 1 planned: SELECT a FROM t WHERE (a >= 2)",
            "2 2 2 Queued { statement: 1, kind: Analyze, at: 2, budget: 1000000 }",
            "1 2 3 Served 2.1: statement 1 steps 4 sent 1 table 1 2 1",
            "1 3 4 End 1 after 6: rows a: 2 3",
            "1 4 5 Close",
            "2 3 3 Taken { statement: 1 }",
            "desk 2",
            "2 1 1 Begin 1 plain: SHOW ANALYZE FOR 1",
            "2 4 4 End 1 after 0: Analyze of 1, begin 1: statement 1 steps 4 sent 1 table 1 2 1",
            "2 5 5 Close",
        ],
    )
}

/// SHOW ANALYZE after it published four steps.
pub fn show_after_four_steps(alloc: Global) -> Result<(), Fail> {
    show(3).compare(
        alloc,
        &[
            "desk 1",
            "1 1 1 Begin 1 planned: SELECT a FROM t WHERE (a >= 2)",
            "2 2 2 Queued { statement: 1, kind: Analyze, at: 4, budget: 1000000 }",
            "1 2 4 Served 2.1: statement 1 steps 6 sent 2 table 1 3 2",
            "1 3 4 End 1 after 6: rows a: 2 3",
            "1 4 5 Close",
            "2 3 3 Taken { statement: 1 }",
            "desk 2",
            "2 1 1 Begin 1 plain: SHOW ANALYZE FOR 1",
            "2 4 4 End 1 after 0: Analyze of 1, begin 1: statement 1 steps 6 sent 2 table 1 3 2",
            "2 5 5 Close",
        ],
    )
}

/// SHOW ANALYZE after it ended.
pub fn show_after_the_end(alloc: Global) -> Result<(), Fail> {
    show(4).compare(
        alloc,
        &[
            "desk 1",
            "1 1 1 Begin 1 planned: SELECT a FROM t WHERE (a >= 2)",
            "1 2 4 End 1 after 6: rows a: 2 3",
            "2 2 2 Refused { statement: 1, why: NotExplainable }",
            "1 3 5 Close",
            "desk 2",
            "2 1 1 Begin 1 plain: SHOW ANALYZE FOR 1",
            "2 3 3 End 1 after 0: NotExplainable",
            "2 4 4 Close",
        ],
    )
}

/// SHOW ANALYZE after its session closed.
pub fn show_after_the_close(alloc: Global) -> Result<(), Fail> {
    show(5).compare(
        alloc,
        &[
            "desk 1",
            "1 1 1 Begin 1 planned: SELECT a FROM t WHERE (a >= 2)",
            "1 2 4 End 1 after 6: rows a: 2 3",
            "1 3 5 Close",
            "2 2 2 Refused { statement: 1, why: NoSuchThread }",
            "desk 2",
            "2 1 1 Begin 1 plain: SHOW ANALYZE FOR 1",
            "2 3 3 End 1 after 0: NoSuchThread",
            "2 4 4 Close",
        ],
    )
}

/// SHOW ANALYZE after it began, which is polled once.
pub fn show_once_after_the_begin(alloc: Global) -> Result<(), Fail> {
    show_once(1).compare(
        alloc,
        &[
            "desk 1",
            "1 1 1 Begin 1 planned: SELECT a FROM t WHERE (a >= 2)",
            "2 2 2 Queued { statement: 1, kind: Analyze, at: 0, budget: 1 }",
            "2 3 3 Spent { statement: 1, turns: 1 }",
            "1 2 4 End 1 after 6: rows a: 2 3",
            "1 3 5 Close",
            "desk 2",
            "2 1 1 Begin 1 plain: SHOW ANALYZE FOR 1",
            "2 4 4 End 1 after 0: TimedOut { turns: 1 }",
            "2 5 5 Close",
        ],
    )
}

/// SHOW ANALYZE after it published two steps, which is polled once.
pub fn show_once_after_two_steps(alloc: Global) -> Result<(), Fail> {
    show_once(2).compare(
        alloc,
        &[
            "desk 1",
            "1 1 1 Begin 1 planned: SELECT a FROM t WHERE (a >= 2)",
            "2 2 2 Queued { statement: 1, kind: Analyze, at: 2, budget: 1 }",
            "2 3 3 Spent { statement: 1, turns: 1 }",
            "1 2 4 End 1 after 6: rows a: 2 3",
            "1 3 5 Close",
            "desk 2",
            "2 1 1 Begin 1 plain: SHOW ANALYZE FOR 1",
            "2 4 4 End 1 after 0: TimedOut { turns: 1 }",
            "2 5 5 Close",
        ],
    )
}

/// SHOW ANALYZE after it published four steps, which is polled once.
pub fn show_once_after_four_steps(alloc: Global) -> Result<(), Fail> {
    show_once(3).compare(
        alloc,
        &[
            "desk 1",
            "1 1 1 Begin 1 planned: SELECT a FROM t WHERE (a >= 2)",
            "2 2 2 Queued { statement: 1, kind: Analyze, at: 4, budget: 1 }",
            "2 3 3 Spent { statement: 1, turns: 1 }",
            "1 2 4 End 1 after 6: rows a: 2 3",
            "1 3 5 Close",
            "desk 2",
            "2 1 1 Begin 1 plain: SHOW ANALYZE FOR 1",
            "2 4 4 End 1 after 0: TimedOut { turns: 1 }",
            "2 5 5 Close",
        ],
    )
}
