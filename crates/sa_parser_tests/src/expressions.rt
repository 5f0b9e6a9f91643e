//! Expressions, as the condition of a query.

use crate::checks::is_canonized;
use std::alloc::Global;
use std::process::Abort;
use std::test::Fail;

/// As the condition of a query, the expression is read as this.
fn is_expression<R: Abort + Alloc<A = Global>>(
    rt: &R,
    name: &str,
    expression: &str,
    canonical: &str,
) -> Result<(), Fail> {
    let text = format!(in rt.alloc(); "SELECT a FROM t WHERE {expression}")?;
    let wanted = format!(in rt.alloc(); "SELECT a FROM t WHERE {canonical}")?;
    is_canonized(rt, name, text.as_str(), wanted.as_str())
}

#[test]
fn groups_and_or_and_not(rt: HostRuntime) -> Result<(), Fail> {
    let rows = [
        ("three with OR", "a OR b OR c", "(a OR b OR c)"),
        ("brackets at the left", "(a OR b) OR c", "((a OR b) OR c)"),
        ("brackets at the right", "a OR (b OR c)", "(a OR (b OR c))"),
        (
            "AND in both spellings, tighter than OR",
            "a AND b && c OR d",
            "((a AND b AND c) OR d)",
        ),
        ("AND behind OR", "a OR b AND c", "(a OR (b AND c))"),
        ("brackets round OR", "(a OR b) AND c", "((a OR b) AND c)"),
        (
            "NOT of a comparison, tighter than AND",
            "NOT a = 1 AND b",
            "((NOT (a = 1)) AND b)",
        ),
        ("NOT of brackets", "NOT (a AND b)", "(NOT (a AND b))"),
        ("NOT twice, in small letters", "not not a", "(NOT (NOT a))"),
    ];
    for (name, text, canonical) in rows {
        is_expression(&rt, name, text, canonical)?;
    }
    Ok(())
}

#[test]
fn reads_comparisons(rt: HostRuntime) -> Result<(), Fail> {
    let rows = [
        ("equal", "a = 1", "(a = 1)"),
        ("equal or both NULL", "a <=> NULL", "(a <=> NULL)"),
        ("unequal", "a <> 1", "(a <> 1)"),
        ("unequal with a bang", "a != 1", "(a <> 1)"),
        ("less", "a < 1", "(a < 1)"),
        ("less or equal", "a <= 1", "(a <= 1)"),
        ("greater", "a > 1", "(a > 1)"),
        ("greater or equal", "a >= 1", "(a >= 1)"),
        ("a comparison in brackets", "(a = b) = c", "((a = b) = c)"),
        ("of a sum", "a = b + 1", "(a = (b + 1))"),
    ];
    for (name, text, canonical) in rows {
        is_expression(&rt, name, text, canonical)?;
    }
    Ok(())
}

#[test]
fn reads_predicates(rt: HostRuntime) -> Result<(), Fail> {
    let rows = [
        ("IS NULL", "a IS NULL", "(a IS NULL)"),
        (
            "IS NOT NULL of a sum",
            "a + 1 is not null",
            "((a + 1) IS NOT NULL)",
        ),
        (
            "the AND of BETWEEN, and another one",
            "a BETWEEN 1 AND 2 AND b",
            "((a BETWEEN 1 AND 2) AND b)",
        ),
        (
            "NOT BETWEEN",
            "a NOT BETWEEN b AND c",
            "(a NOT BETWEEN b AND c)",
        ),
        ("IN one value", "a IN (1)", "(a IN (1))"),
        (
            "NOT IN three values",
            "a NOT IN (1, b + 2, 'x')",
            "(a NOT IN (1, (b + 2), 'x'))",
        ),
        ("NOT before IN", "NOT a IN (1)", "(NOT (a IN (1)))"),
    ];
    for (name, text, canonical) in rows {
        is_expression(&rt, name, text, canonical)?;
    }
    Ok(())
}

#[test]
fn groups_arithmetic_to_the_left(rt: HostRuntime) -> Result<(), Fail> {
    let rows = [
        ("a sum and a difference", "a + b - c", "((a + b) - c)"),
        ("brackets at the right", "a - (b + c)", "(a - (b + c))"),
        ("a product in a sum", "a + b * c", "(a + (b * c))"),
        ("three factors", "a * b * c", "((a * b) * c)"),
        ("brackets at the left", "(a + b) * c", "((a + b) * c)"),
        ("a minus of a column", "-a * b", "((-a) * b)"),
        ("a minus behind a minus", "a - -b", "(a - (-b))"),
    ];
    for (name, text, canonical) in rows {
        is_expression(&rt, name, text, canonical)?;
    }
    Ok(())
}

#[test]
fn reads_signs(rt: HostRuntime) -> Result<(), Fail> {
    let rows = [
        ("a minus", "-5", "-5"),
        ("a minus of brackets", "-(5)", "-5"),
        ("two minuses", "- -5", "5"),
        ("minus zero", "-0", "0"),
        ("a plus", "+5", "5"),
        ("a plus of a column", "+a", "a"),
        ("a plus and a minus", "+-5", "-5"),
        ("a minus of a column", "-a", "(-a)"),
        ("two minuses of a column", "- -a", "(-(-a))"),
        ("a difference", "1 - 5", "(1 - 5)"),
        ("a difference with a minus", "1 - -5", "(1 - -5)"),
        (
            "38 digits",
            "-99999999999999999999999999999999999999",
            "-99999999999999999999999999999999999999",
        ),
    ];
    for (name, text, canonical) in rows {
        is_expression(&rt, name, text, canonical)?;
    }
    Ok(())
}

#[test]
fn reads_primaries(rt: HostRuntime) -> Result<(), Fail> {
    let rows = [
        ("zeros in front", "007", "7"),
        ("a table and a column", "t.a", "t.a"),
        ("both in backquotes", "`order`.`a``b`", "`order`.`a``b`"),
        ("a doubled quote", "'it''s'", "'it''s'"),
        ("an escaped backslash", "\"a\\\\b\"", "'a\\\\b'"),
        ("no character", "''", "''"),
        ("NULL in small letters", "null", "NULL"),
        ("TRUE in mixed letters", "True", "TRUE"),
        ("FALSE", "FALSE", "FALSE"),
        ("two brackets", "((a))", "a"),
        ("COUNT of all rows", "COUNT(*)", "COUNT(*)"),
        ("COUNT with blanks", "count ( a )", "COUNT(a)"),
    ];
    for (name, text, canonical) in rows {
        is_expression(&rt, name, text, canonical)?;
    }
    Ok(())
}

#[test]
fn reads_aggregates(rt: HostRuntime) -> Result<(), Fail> {
    let rows = [
        ("SUM of a sum", "SUM(a + 1)", "SUM((a + 1))"),
        (
            "MIN of a comparison in brackets",
            "min((a = 1))",
            "MIN((a = 1))",
        ),
        ("MAX of a negative number", "MAX(-1)", "MAX(-1)"),
        ("SUM of a COUNT", "SUM(COUNT(*))", "SUM(COUNT(*))"),
        ("a table named count", "count.a", "count.a"),
        ("a column named count", "`count`", "count"),
    ];
    for (name, text, canonical) in rows {
        is_expression(&rt, name, text, canonical)?;
    }
    Ok(())
}
