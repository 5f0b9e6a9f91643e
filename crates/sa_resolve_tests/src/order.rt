//! Aliases and positions of select items, and ORDER BY with DISTINCT.

use crate::checks::{is_faulty, is_right};
use std::test::Fail;

#[test]
fn finds_aliases(rt: HostRuntime) -> Result<(), Fail> {
    let rows = [
        ("in ORDER BY", "SELECT a AS x FROM t ORDER BY x"),
        ("in HAVING", "SELECT a AS x FROM t GROUP BY a HAVING x = 1"),
        ("in GROUP BY", "SELECT a AS x FROM t GROUP BY x"),
        (
            "within an expression",
            "SELECT a AS x FROM t ORDER BY x + 1",
        ),
        (
            "within an aggregate",
            "SELECT a AS x FROM t GROUP BY a HAVING SUM(x) > 1",
        ),
        (
            "equal ones that nobody seeks",
            "SELECT a AS x, b AS x FROM u ORDER BY a",
        ),
        (
            "an alias that hides an ambiguous column",
            "SELECT x.a AS a FROM t AS x, t AS y ORDER BY a",
        ),
        (
            "a column before two aliases in GROUP BY",
            "SELECT b AS a, c AS a FROM u GROUP BY a, b, c",
        ),
        (
            "a grouped column by its alias",
            "SELECT a AS x FROM t GROUP BY a ORDER BY x",
        ),
    ];
    for (name, text) in rows {
        is_right(&rt, name, text)?;
    }
    Ok(())
}

#[test]
fn seeks_aliases_nowhere_else(rt: HostRuntime) -> Result<(), Fail> {
    let rows = [
        ("in WHERE", "SELECT a AS x FROM t WHERE ^x = 1"),
        ("in ON", "SELECT a AS x FROM t JOIN v ON ^x = 1"),
        ("in the select list", "SELECT a AS x, ^x FROM t"),
        ("behind a table", "SELECT a AS x FROM t ORDER BY ^t.x"),
        ("in another case", "SELECT a AS x FROM t ORDER BY ^`X`"),
        ("a column's own name", "SELECT a AS x FROM t ORDER BY ^y"),
        ("in GROUP BY", "SELECT 1 AS x FROM t GROUP BY ^y"),
    ];
    for (name, text) in rows {
        is_faulty(&rt, name, text, "UnknownColumn")?;
    }
    Ok(())
}

#[test]
fn tells_equal_aliases_that_are_sought(rt: HostRuntime) -> Result<(), Fail> {
    let rows = [
        ("in ORDER BY", "SELECT a AS x, b AS x FROM u ORDER BY ^x"),
        (
            "though a column has the name",
            "SELECT b AS a, c AS a FROM u ORDER BY ^a",
        ),
        (
            "in HAVING",
            "SELECT a AS x, b AS x FROM u GROUP BY a, b HAVING ^x = 1",
        ),
        ("in GROUP BY", "SELECT 1 AS x, 2 AS x FROM u GROUP BY ^x"),
        (
            "three of them",
            "SELECT a AS x, b AS x, c AS x FROM u ORDER BY ^x",
        ),
        (
            "two columns before an alias in GROUP BY",
            "SELECT 1 AS a FROM t AS x, t AS y GROUP BY ^a",
        ),
    ];
    for (name, text) in rows {
        is_faulty(&rt, name, text, "Ambiguous")?;
    }
    Ok(())
}

#[test]
fn finds_positions(rt: HostRuntime) -> Result<(), Fail> {
    let rows = [
        ("the second", "SELECT a, b FROM u ORDER BY 2"),
        ("both", "SELECT a, b FROM u GROUP BY 1, 2"),
        ("the last of a star", "SELECT * FROM u ORDER BY 5"),
        ("behind a star", "SELECT *, 7 FROM u ORDER BY 6"),
        ("no number alone", "SELECT a FROM t ORDER BY 1 + 5"),
        ("a text", "SELECT a FROM t ORDER BY 'x'"),
    ];
    for (name, text) in rows {
        is_right(&rt, name, text)?;
    }
    Ok(())
}

#[test]
fn tells_positions_without_an_item(rt: HostRuntime) -> Result<(), Fail> {
    let rows = [
        ("one past the end", "SELECT a FROM t ORDER BY ^2"),
        ("one past a star", "SELECT * FROM u ORDER BY ^6"),
        ("zero", "SELECT a FROM t ORDER BY ^0"),
        ("a negative one", "SELECT a FROM t ORDER BY ^-1"),
        (
            "past 64 bits",
            "SELECT a FROM t ORDER BY ^99999999999999999999",
        ),
        ("in GROUP BY", "SELECT 1 FROM t GROUP BY ^2"),
    ];
    for (name, text) in rows {
        is_faulty(&rt, name, text, "UnknownColumn")?;
    }
    Ok(())
}

#[test]
fn orders_distinct_rows_by_select_items(rt: HostRuntime) -> Result<(), Fail> {
    let rows = [
        ("a column", "SELECT DISTINCT a FROM t ORDER BY a"),
        ("its alias", "SELECT DISTINCT a AS x FROM t ORDER BY x"),
        (
            "behind an alias",
            "SELECT DISTINCT a AS x FROM t ORDER BY a",
        ),
        ("its position", "SELECT DISTINCT a FROM t ORDER BY 1 DESC"),
        (
            "an expression",
            "SELECT DISTINCT a + 1 FROM t ORDER BY t.a + 1",
        ),
        (
            "a column of a star",
            "SELECT DISTINCT * FROM u ORDER BY c, u.b",
        ),
        (
            "an aggregate",
            "SELECT DISTINCT COUNT(*) FROM t ORDER BY COUNT(*)",
        ),
        (
            "a sum",
            "SELECT DISTINCT SUM(a) FROM t GROUP BY a ORDER BY SUM(t.a)",
        ),
    ];
    for (name, text) in rows {
        is_right(&rt, name, text)?;
    }
    Ok(())
}

#[test]
fn tells_distinct_rows_in_another_order(rt: HostRuntime) -> Result<(), Fail> {
    let rows = [
        ("another column", "SELECT DISTINCT a FROM u ORDER BY ^b"),
        ("the second", "SELECT DISTINCT a FROM u ORDER BY a, ^b"),
        ("an expression", "SELECT DISTINCT a FROM t ORDER BY ^a + 1"),
        ("in brackets", "SELECT DISTINCT a FROM t ORDER BY ^(a + 1)"),
        (
            "another order of operands",
            "SELECT DISTINCT a + b FROM u ORDER BY ^b + a",
        ),
        (
            "another table",
            "SELECT DISTINCT t.a FROM t, u ORDER BY ^u.a",
        ),
        (
            "a faulty item",
            "SELECT DISTINCT a FROM t ORDER BY ^a + nope",
        ),
        (
            "before a faulty item",
            "SELECT DISTINCT a FROM u ORDER BY ^b, a + nope",
        ),
        (
            "another aggregate",
            "SELECT DISTINCT COUNT(*) FROM t ORDER BY ^COUNT(a)",
        ),
        (
            "before a number past 64 bits",
            "SELECT DISTINCT COUNT(*) FROM t ORDER BY ^MAX(a), MAX(99999999999999999999)",
        ),
        ("a constant", "SELECT DISTINCT a FROM t ORDER BY ^'x'"),
    ];
    for (name, text) in rows {
        is_faulty(&rt, name, text, "GroupRule")?;
    }
    Ok(())
}

#[test]
fn tells_a_faulty_name_before_the_rule_of_distinct(rt: HostRuntime) -> Result<(), Fail> {
    let rows = [
        ("a name", "SELECT DISTINCT a FROM t ORDER BY ^nope"),
        ("a position", "SELECT DISTINCT a FROM t ORDER BY ^2"),
        ("without DISTINCT", "SELECT a FROM t ORDER BY a + ^nope"),
    ];
    for (name, text) in rows {
        is_faulty(&rt, name, text, "UnknownColumn")?;
    }
    Ok(())
}
