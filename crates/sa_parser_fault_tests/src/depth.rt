//! How deep a statement may go.

use crate::checks::{is_read, sets_up};
use sa_parser_fixtures::{repeated, session_line};
use std::alloc::Global;
use std::process::Abort;
use std::test::Fail;

/// `SELECT a FROM t WHERE`, so many brackets, and a condition in them.
fn bracketed(alloc: Global, brackets: usize, condition: &str) -> Result<String, Fail> {
    let opened = repeated(alloc, "SELECT a FROM t WHERE ", "(", brackets, condition)?;
    Ok(repeated(alloc, opened.as_str(), ")", brackets, "")?)
}

/// The condition within so many brackets is read as this.
fn is_nested<R: Abort + Alloc<A = Global>>(
    rt: &R,
    name: &str,
    brackets: usize,
    condition: &str,
    wanted: &str,
) -> Result<(), Fail> {
    let text = bracketed(rt.alloc(), brackets, condition)?;
    is_read(rt, name, text.as_str(), wanted)
}

#[test]
fn reads_64_levels_and_no_more(rt: HostRuntime) -> Result<(), Fail> {
    let rows = [
        (
            "63 brackets and a comparison",
            63,
            "a = 1",
            "SELECT a FROM t WHERE (a = 1)",
        ),
        ("64 brackets", 64, "a", "SELECT a FROM t WHERE a"),
        ("64 brackets and a comparison", 64, "a = 1", "TooDeep at 88"),
        ("65 brackets", 65, "a = 1", "TooDeep at 86"),
        (
            "a faulty comparison that is one too many",
            63,
            "a = b = c",
            "TooDeep at 91",
        ),
        ("a faulty comparison", 62, "a = b = c", "Syntax at 90"),
        ("a fault at the deepest level", 64, "a b", "Syntax at 88"),
    ];
    for (name, brackets, condition, wanted) in rows {
        is_nested(&rt, name, brackets, condition, wanted)?;
    }
    Ok(())
}

/// What stands so many times before the rest, in a condition.
fn is_prefixed<R: Abort + Alloc<A = Global>>(
    rt: &R,
    name: &str,
    prefix: &str,
    times: usize,
    rest: &str,
    wanted: &str,
) -> Result<(), Fail> {
    let text = repeated(rt.alloc(), "SELECT a FROM t WHERE ", prefix, times, rest)?;
    is_read(rt, name, text.as_str(), wanted)
}

#[test]
fn counts_what_goes_deeper(rt: HostRuntime) -> Result<(), Fail> {
    let rows = [
        ("NOT", "NOT ", 65, "a", "TooDeep at 278"),
        ("minus", "- ", 65, "a", "TooDeep at 150"),
        ("a sum", "a + ", 65, "a", "TooDeep at 280"),
        ("a product", "a * ", 65, "a", "TooDeep at 280"),
        (
            "a comparison behind NOT",
            "NOT ",
            64,
            "a = 1",
            "TooDeep at 280",
        ),
    ];
    for (name, prefix, times, rest, wanted) in rows {
        is_prefixed(&rt, name, prefix, times, rest, wanted)?;
    }
    Ok(())
}

/// A comma, AND, OR and the words of clauses begin afresh.
#[test]
fn counts_afresh(rt: HostRuntime) -> Result<(), Fail> {
    let joined = repeated(rt.alloc(), "SELECT a FROM t WHERE a", " AND a = 1", 70, "")?;
    let wanted = repeated(
        rt.alloc(),
        "SELECT a FROM t WHERE (a",
        " AND (a = 1)",
        70,
        ")",
    )?;
    is_read(&rt, "AND", joined.as_str(), wanted.as_str())?;
    let listed = repeated(rt.alloc(), "SELECT -1", ", -1", 70, " FROM t")?;
    is_read(&rt, "commas", listed.as_str(), listed.as_str())
}

/// The stars of `*`, `t.*` and `COUNT(*)` count nothing.
#[test]
fn counts_no_star_of_columns(rt: HostRuntime) -> Result<(), Fail> {
    let text = bracketed(rt.alloc(), 63, "COUNT(*)")?;
    is_read(
        &rt,
        "COUNT(*)",
        text.as_str(),
        "SELECT a FROM t WHERE COUNT(*)",
    )
}

/// A table's definition with so many times NOT NULL behind its column, and then this, is read as this.
fn is_defined<R: Abort + Alloc<A = Global>>(
    rt: &R,
    name: &str,
    times: usize,
    rest: &str,
    wanted: &str,
) -> Result<(), Fail> {
    let text = repeated(
        rt.alloc(),
        "CREATE TABLE t (a INT",
        " NOT NULL",
        times,
        rest,
    )?;
    sets_up(rt, name, text.as_str(), wanted)
}

/// Sixty-four levels hold for these statements too. An `=` in their bracket counts by its spelling,
/// though it is always a fault, and the one of ENGINE counts nothing.
#[test]
fn counts_levels_of_definitions(rt: HostRuntime) -> Result<(), Fail> {
    let rows = [
        ("a bracket and 63 NOTs", 63, ")", "t; a INT!"),
        ("a bracket and 64 NOTs", 64, ")", "TooDeep at 589"),
        ("an equal sign at level 65", 63, " =", "TooDeep at 589"),
        ("an equal sign at level 64", 62, " =", "Syntax at 580"),
        (
            "the equal sign of ENGINE",
            63,
            ") ENGINE = Aria",
            "t; a INT!",
        ),
    ];
    for (name, times, rest, wanted) in rows {
        is_defined(&rt, name, times, rest, wanted)?;
    }
    Ok(())
}

/// What stands before the innermost condition, and behind it: within each of so many brackets as many
/// NOTs as there are levels left, and a BETWEEN.
fn between_levels(
    alloc: Global,
    levels: usize,
    not: &str,
    between: &str,
    end: &str,
) -> Result<(String, String), Fail> {
    let mut before = String::new(alloc);
    let mut behind = String::new(alloc);
    for brackets in 0..levels {
        before.push_str(repeated(alloc, "", not, levels - brackets, between)?.as_str())?;
        behind.push_str(repeated(alloc, "", end, levels - brackets, ")")?.as_str())?;
    }
    Ok((before, behind))
}

/// A statement that nests so is read as itself, and its tree is printed and let go.
fn is_nested_between<R: Abort + Alloc<A = Global>>(
    rt: &R,
    name: &str,
    levels: usize,
) -> Result<(), Fail> {
    let alloc = rt.alloc();
    let (before, behind) = between_levels(alloc, levels, "NOT ", "a BETWEEN 1 AND (", "")?;
    let text = format!(in alloc; "SELECT a FROM t WHERE {before}b{behind}")?;
    let (before, behind) = between_levels(alloc, levels, "(NOT ", "(a BETWEEN 1 AND ", ")")?;
    let wanted = format!(in alloc; "SELECT a FROM t WHERE {before}b{behind}")?;
    let found = session_line(alloc, text.as_str())?;
    assert!(rt; found.as_str() == wanted.as_str(), "{name}: {text}");
    Ok(())
}

/// The AND of a BETWEEN begins afresh too. So a statement of 64 levels can nest some two thousand
/// times. The one with 64 brackets is the deepest that is read.
#[test]
fn reads_what_nests_deeper_than_it_counts(rt: HostRuntime) -> Result<(), Fail> {
    is_nested_between(&rt, "63 brackets", 63)?;
    is_nested_between(&rt, "64 brackets", 64)?;
    let (before, behind) = between_levels(rt.alloc(), 65, "NOT ", "a BETWEEN 1 AND (", "")?;
    let text = format!(in rt.alloc(); "SELECT a FROM t WHERE {before}b{behind}")?;
    is_read(&rt, "65 NOTs", text.as_str(), "TooDeep at 278")
}
