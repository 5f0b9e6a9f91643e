//! Long statements.

use sa_parser_fixtures::{repeated, session_line};
use std::alloc::Global;
use std::process::Abort;
use std::test::Fail;

/// How long a statement is in these tests, about.
const LONG: usize = 65_536;

/// A long statement is read as this one, which is as long.
fn is_read_long<R: Abort + Alloc<A = Global>>(
    rt: &R,
    name: &str,
    first: &str,
    again: &str,
    last: &str,
    canonical: (&str, &str),
) -> Result<(), Fail> {
    let times = LONG / again.len().max(1);
    let text = repeated(rt.alloc(), first, again, times, last)?;
    let wanted = repeated(rt.alloc(), canonical.0, again, times, canonical.1)?;
    let found = session_line(rt.alloc(), text.as_str())?;
    assert!(rt;
        found.as_str() == wanted.as_str(),
        "{name}: {first}{again}..{last}"
    );
    Ok(())
}

#[test]
fn reads_a_long_condition(rt: HostRuntime) -> Result<(), Fail> {
    is_read_long(
        &rt,
        "a condition",
        "SELECT a FROM t WHERE a",
        " AND a",
        "",
        ("SELECT a FROM t WHERE (a", ")"),
    )
}

#[test]
fn reads_a_long_list_of_values(rt: HostRuntime) -> Result<(), Fail> {
    is_read_long(
        &rt,
        "a list of values",
        "SELECT a FROM t WHERE a IN (1",
        ", 1",
        ")",
        ("SELECT a FROM t WHERE (a IN (1", "))"),
    )
}

#[test]
fn reads_a_long_select_list(rt: HostRuntime) -> Result<(), Fail> {
    is_read_long(
        &rt,
        "a select list",
        "SELECT a",
        ", a",
        " FROM t",
        ("SELECT a", " FROM t"),
    )
}
