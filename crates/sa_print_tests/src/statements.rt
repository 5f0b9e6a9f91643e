//! Statements that aren't queries.

ghost use Rattle.sa_print.specs.Statement.{HasText};

use sa_ast::{AskKind, KillKind, Statement};
use sa_print::statement_text;
use std::alloc::Global;
use std::process::Abort;
use std::test::Fail;

/// This is the canonical text of the statement.
fn is_stated<R: Abort + Alloc<A = Global>>(
    rt: &R,
    name: &str,
    tree: &Statement,
    wanted: &str,
) -> Result<(), Fail>
    requires { HasText tree.now }
{
    let text = statement_text(rt.alloc(), tree)?;
    assert_eq!(rt; text.as_str(), wanted, "{name}: {tree:?}");
    Ok(())
}

#[test]
fn writes_what_asks_of_another_session(rt: HostRuntime) -> Result<(), Fail> {
    let kind = AskKind::Explain;
    let show = Statement::Show { kind, id: 7 };
    is_stated(&rt, "its plan", &show, "SHOW EXPLAIN FOR 7")?;
    let kind = AskKind::Analyze;
    let show = Statement::Show { kind, id: 1 };
    is_stated(&rt, "its counters", &show, "SHOW ANALYZE FOR 1")?;
    let wait = Statement::Wait { id: 1, at: 4 };
    is_stated(&rt, "a wait", &wait, "WAIT FOR 1 AT 4")
}

#[test]
fn writes_what_ends_another_session(rt: HostRuntime) -> Result<(), Fail> {
    let kind = KillKind::Connection;
    let kill = Statement::Kill { kind, id: 1 };
    is_stated(&rt, "the session", &kill, "KILL CONNECTION 1")?;
    let kind = KillKind::Query;
    let kill = Statement::Kill { kind, id: 2 };
    is_stated(&rt, "its statement", &kill, "KILL QUERY 2")
}

#[test]
fn writes_settings(rt: HostRuntime) -> Result<(), Fail> {
    let on = "SET optimizer_trace = 'enabled=on'";
    is_stated(&rt, "a trace", &Statement::SetTrace(true), on)?;
    let off = "SET optimizer_trace = 'enabled=off'";
    is_stated(&rt, "no trace", &Statement::SetTrace(false), off)?;
    let steps = "SET max_row_steps = 5";
    is_stated(&rt, "a limit", &Statement::SetLimit(5), steps)?;
    let rows = "SELECT * FROM information_schema.optimizer_trace";
    is_stated(&rt, "the trace", &Statement::TraceRows, rows)
}
