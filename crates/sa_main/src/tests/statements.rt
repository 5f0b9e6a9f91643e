//! One session's statements: how they end.

use super::lines::prints_lines;
use super::*;

const LIMITED: &str = r#"{"actor":1,"desk":1,"enabled":false,"event":"begin",..
{"actor":1,"desk":1,"event":"end","outcome":{"kind":"set"},..
{"actor":1,"desk":1,"enabled":true,"event":"begin",..
{"actor":1,"desk":1,"event":"end",.."count":2,"kind":"rows"},.."statement":2,"steps":6,..
{"row":[2]}
{"row":[3]}
{"actor":1,"desk":1,"enabled":false,"event":"begin",..
{"actor":1,"desk":1,"event":"end","outcome":{"kind":"set"},..
{"actor":1,"desk":1,"enabled":true,"event":"begin",..
{"actor":1,"desk":1,"event":"end",.."why":"RowLimit"},.."statement":4,"steps":5,..
{"actor":1,"desk":1,"event":"close",..
{"done":true}
"#;

#[test]
fn keeps_the_limit_of_row_steps(rt: HostRuntime) -> Result<(), Fail> {
    let sessions = "SESSION 1; SET max_row_steps = 6; SELECT a FROM t WHERE a >= 2; \
        SET max_row_steps = 5; SELECT a FROM t WHERE a >= 2";
    prints_lines(
        &rt,
        rt.alloc(),
        "as many steps, and one too few",
        sessions,
        LIMITED,
    )
}

/// The only statement of a session ends so.
fn ends(rt: &impl Abort, alloc: Global, statement: &str, end: &str) -> Result<(), Fail> {
    let sessions = format!(in alloc; "SESSION 1; {statement}")?;
    let wanted = format!(in alloc;
        "..\"event\":\"begin\",..\n..\"event\":\"end\",..{end}\n..\"event\":\"close\",..\n..done..\n"
    )?;
    prints_lines(rt, alloc, statement, sessions.as_str(), wanted.as_str())
}

#[test]
fn refuses_statements_at_their_places(rt: HostRuntime) -> Result<(), Fail> {
    let rows = [
        ("SELECT a FROM", 13, "Syntax"),
        ("SELECT a FROM t WHERE a LIKE 'x'", 24, "NotSupported"),
        (
            "SELECT a FROM t LEFT JOIN u ON t.a = u.a",
            16,
            "NotSupported",
        ),
        ("SELECT x FROM t LIMIT 1", 7, "UnknownColumn"),
        ("EXPLAIN SELECT x FROM t", 15, "UnknownColumn"),
        ("SELECT a FROM t WHERE a = 'x'", 24, "TypeMismatch"),
    ];
    for (statement, place, why) in rows {
        let end = format!(in rt.alloc();
            "\"kind\":\"refused\",\"place\":{place},\"why\":\"{why}\""
        )?;
        ends(&rt, rt.alloc(), statement, end.as_str())?;
    }
    Ok(())
}

#[test]
fn refuses_what_is_not_built(rt: HostRuntime) -> Result<(), Fail> {
    let rows = [
        ("EXPLAIN SELECT a FROM t", 0),
        ("SET optimizer_trace = 'enabled=on'", 0),
        ("SELECT DISTINCT a FROM t", 7),
        ("SELECT t.a FROM t, t AS u", 19),
        ("SELECT a FROM t GROUP BY a", 16),
        ("SELECT a FROM t ORDER BY a LIMIT 1", 16),
        ("SELECT a FROM t LIMIT 1", 16),
        ("SELECT MAX(a) FROM t HAVING COUNT(*) > 1", 7),
    ];
    for (statement, place) in rows {
        let end = format!(in rt.alloc();
            "\"kind\":\"refused\",\"place\":{place},\"why\":\"NotSupported\""
        )?;
        ends(&rt, rt.alloc(), statement, end.as_str())?;
    }
    Ok(())
}

#[test]
fn selects_by_each_operator(rt: HostRuntime) -> Result<(), Fail> {
    let rows = [
        ("=", 5, "\n{\"row\":[2]}"),
        ("<=>", 5, "\n{\"row\":[2]}"),
        ("<>", 6, "\n{\"row\":[1]}\n{\"row\":[3]}"),
        ("!=", 6, "\n{\"row\":[1]}\n{\"row\":[3]}"),
        ("<", 5, "\n{\"row\":[1]}"),
        ("<=", 6, "\n{\"row\":[1]}\n{\"row\":[2]}"),
        (">", 5, "\n{\"row\":[3]}"),
        (">=", 6, "\n{\"row\":[2]}\n{\"row\":[3]}"),
    ];
    for (operator, steps, selected) in rows {
        let statement = format!(in rt.alloc(); "SELECT a FROM t WHERE a {operator} 2")?;
        let end = format!(in rt.alloc(); "\"steps\":{steps},..{selected}")?;
        ends(&rt, rt.alloc(), statement.as_str(), end.as_str())?;
    }
    Ok(())
}
