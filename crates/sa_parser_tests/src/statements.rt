//! The statements of a session.

use crate::checks::is_canonized;
use std::test::Fail;

#[test]
fn reads_select_lists(rt: HostRuntime) -> Result<(), Fail> {
    let rows = [
        ("small letters", "select 1 from t", "SELECT 1 FROM t"),
        ("ALL", "SELECT ALL a FROM t", "SELECT a FROM t"),
        (
            "DISTINCT",
            "SELECT DISTINCT a, b FROM t",
            "SELECT DISTINCT a, b FROM t",
        ),
        ("a star", "SELECT * FROM t", "SELECT * FROM t"),
        (
            "a table's star",
            "SELECT t.*, a, * FROM t",
            "SELECT t.*, a, * FROM t",
        ),
        (
            "an alias with AS and without it",
            "SELECT a x, b AS y FROM t",
            "SELECT a AS x, b AS y FROM t",
        ),
        (
            "names in backquotes",
            "SELECT `from` `a b` FROM t",
            "SELECT `from` AS `a b` FROM t",
        ),
        (
            "columns named as aggregates",
            "SELECT count, sum FROM t",
            "SELECT count, sum FROM t",
        ),
    ];
    for (name, text, canonical) in rows {
        is_canonized(&rt, name, text, canonical)?;
    }
    Ok(())
}

#[test]
fn reads_tables(rt: HostRuntime) -> Result<(), Fail> {
    let rows = [
        (
            "aliases",
            "SELECT a FROM t u, v AS w",
            "SELECT a FROM t AS u, v AS w",
        ),
        (
            "each kind of JOIN",
            "SELECT a FROM t INNER JOIN u ON t.a = u.a CROSS JOIN v JOIN w",
            "SELECT a FROM t JOIN u ON (t.a = u.a) JOIN v JOIN w",
        ),
        (
            "JOIN and commas",
            "SELECT a FROM t, u x JOIN v y ON 1, w",
            "SELECT a FROM t, u AS x JOIN v AS y ON 1, w",
        ),
        (
            "a backquote in a name",
            "SELECT a FROM `t``u`",
            "SELECT a FROM `t``u`",
        ),
    ];
    for (name, text, canonical) in rows {
        is_canonized(&rt, name, text, canonical)?;
    }
    Ok(())
}

#[test]
fn reads_clauses(rt: HostRuntime) -> Result<(), Fail> {
    let rows = [
        (
            "WHERE",
            "SELECT a FROM t WHERE b",
            "SELECT a FROM t WHERE b",
        ),
        (
            "GROUP BY",
            "SELECT a FROM t GROUP BY a, b + 1",
            "SELECT a FROM t GROUP BY a, (b + 1)",
        ),
        (
            "HAVING",
            "SELECT a FROM t HAVING COUNT(*) > 1",
            "SELECT a FROM t HAVING (COUNT(*) > 1)",
        ),
        (
            "ORDER BY in both directions",
            "SELECT a FROM t ORDER BY a ASC, b DESC, c",
            "SELECT a FROM t ORDER BY a, b DESC, c",
        ),
        (
            "all of them",
            "SELECT a FROM t WHERE a GROUP BY b HAVING c ORDER BY d LIMIT 1",
            "SELECT a FROM t WHERE a GROUP BY b HAVING c ORDER BY d LIMIT 1",
        ),
    ];
    for (name, text, canonical) in rows {
        is_canonized(&rt, name, text, canonical)?;
    }
    Ok(())
}

#[test]
fn reads_limits(rt: HostRuntime) -> Result<(), Fail> {
    let rows = [
        (
            "none at all",
            "SELECT a FROM t LIMIT 0",
            "SELECT a FROM t LIMIT 0",
        ),
        (
            "the offset first",
            "SELECT a FROM t LIMIT 2, 10",
            "SELECT a FROM t LIMIT 10 OFFSET 2",
        ),
        (
            "OFFSET",
            "SELECT a FROM t LIMIT 10 OFFSET 2",
            "SELECT a FROM t LIMIT 10 OFFSET 2",
        ),
        (
            "an offset of 0",
            "SELECT a FROM t LIMIT 10 OFFSET 0",
            "SELECT a FROM t LIMIT 10",
        ),
        (
            "the greatest number",
            "SELECT a FROM t LIMIT 18446744073709551615",
            "SELECT a FROM t LIMIT 18446744073709551615",
        ),
    ];
    for (name, text, canonical) in rows {
        is_canonized(&rt, name, text, canonical)?;
    }
    Ok(())
}

#[test]
fn reads_plans_and_requests(rt: HostRuntime) -> Result<(), Fail> {
    let rows = [
        (
            "EXPLAIN",
            "EXPLAIN SELECT a FROM t",
            "EXPLAIN SELECT a FROM t",
        ),
        (
            "EXPLAIN with a format",
            "explain format = json select a from t",
            "EXPLAIN SELECT a FROM t",
        ),
        (
            "ANALYZE",
            "ANALYZE SELECT a FROM t",
            "ANALYZE SELECT a FROM t",
        ),
        (
            "ANALYZE with a format",
            "ANALYZE FORMAT=JSON SELECT a FROM t",
            "ANALYZE SELECT a FROM t",
        ),
        ("SHOW EXPLAIN", "SHOW EXPLAIN FOR 3", "SHOW EXPLAIN FOR 3"),
        (
            "SHOW ANALYZE with a format",
            "SHOW ANALYZE FORMAT = JSON FOR 16",
            "SHOW ANALYZE FOR 16",
        ),
        (
            "EXPLAIN FOR CONNECTION",
            "EXPLAIN FOR CONNECTION 3",
            "SHOW EXPLAIN FOR 3",
        ),
        (
            "the same with a format",
            "EXPLAIN FORMAT = JSON FOR CONNECTION 3",
            "SHOW EXPLAIN FOR 3",
        ),
    ];
    for (name, text, canonical) in rows {
        is_canonized(&rt, name, text, canonical)?;
    }
    Ok(())
}

#[test]
fn reads_kills_waits_and_settings(rt: HostRuntime) -> Result<(), Fail> {
    let rows = [
        ("KILL alone", "KILL 1", "KILL CONNECTION 1"),
        ("KILL CONNECTION", "KILL CONNECTION 2", "KILL CONNECTION 2"),
        ("KILL QUERY", "kill query 3", "KILL QUERY 3"),
        ("a wait for no step", "WAIT FOR 1 AT 0", "WAIT FOR 1 AT 0"),
        (
            "a wait for the most steps",
            "WAIT FOR 2 AT 1099511627776",
            "WAIT FOR 2 AT 1099511627776",
        ),
        (
            "the trace on",
            "SET optimizer_trace = 'enabled=on'",
            "SET optimizer_trace = 'enabled=on'",
        ),
        (
            "the trace off, for the session",
            "SET SESSION optimizer_trace = \"enabled=off\"",
            "SET optimizer_trace = 'enabled=off'",
        ),
        ("one step", "SET max_row_steps = 1", "SET max_row_steps = 1"),
        (
            "the most steps",
            "SET SESSION max_row_steps = 1099511627776",
            "SET max_row_steps = 1099511627776",
        ),
        (
            "the rows of the trace",
            "select * from INFORMATION_SCHEMA . Optimizer_Trace",
            "SELECT * FROM information_schema.optimizer_trace",
        ),
    ];
    for (name, text, canonical) in rows {
        is_canonized(&rt, name, text, canonical)?;
    }
    Ok(())
}

/// A table may bear any of these names, and the word is no keyword then.
#[test]
fn reads_words_as_names_where_names_stand(rt: HostRuntime) -> Result<(), Fail> {
    for name in [
        "information_schema",
        "query",
        "format",
        "int",
        "wait",
        "engine",
    ] {
        let text = format!(in rt.alloc(); "SELECT {name} FROM {name} WHERE {name}.{name}")?;
        is_canonized(&rt, name, text.as_str(), text.as_str())?;
    }
    Ok(())
}
