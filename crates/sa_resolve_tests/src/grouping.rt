//! The rules of GROUP BY, HAVING and aggregates.

use crate::checks::{is_faulty, is_right};
use std::test::Fail;

#[test]
fn takes_what_groups(rt: HostRuntime) -> Result<(), Fail> {
    let rows = [
        ("a column", "SELECT a FROM t GROUP BY a"),
        (
            "an aggregate beside it",
            "SELECT a, COUNT(*) FROM t GROUP BY a",
        ),
        (
            "an expression over it",
            "SELECT a + 1, COUNT(*) FROM t GROUP BY a",
        ),
        (
            "another column in an aggregate",
            "SELECT MAX(b) FROM u GROUP BY a",
        ),
        ("a star of one column", "SELECT * FROM t GROUP BY a"),
        (
            "a column of one of two tables",
            "SELECT x.a FROM t AS x, t AS y GROUP BY x.a",
        ),
        ("twice the same", "SELECT a FROM t GROUP BY a, t.a"),
        ("in brackets", "SELECT a FROM t GROUP BY (a)"),
    ];
    for (name, text) in rows {
        is_right(&rt, name, text)?;
    }
    Ok(())
}

#[test]
fn takes_what_groups_by_aggregates(rt: HostRuntime) -> Result<(), Fail> {
    let rows = [
        ("aggregates alone", "SELECT COUNT(*), SUM(a), MIN(a) FROM t"),
        (
            "a constant beside an aggregate",
            "SELECT 1, COUNT(*) FROM t",
        ),
        (
            "HAVING with an aggregate",
            "SELECT 1 FROM t HAVING COUNT(*) = 1",
        ),
        (
            "HAVING with GROUP BY",
            "SELECT 1 FROM t GROUP BY a HAVING a = 1",
        ),
        (
            "HAVING of a grouping select list",
            "SELECT COUNT(*) FROM t HAVING 1 = 1",
        ),
        (
            "ORDER BY with an aggregate",
            "SELECT 1 FROM t ORDER BY COUNT(*)",
        ),
    ];
    for (name, text) in rows {
        is_right(&rt, name, text)?;
    }
    Ok(())
}

#[test]
fn tells_what_is_no_column_to_group_by(rt: HostRuntime) -> Result<(), Fail> {
    let rows = [
        ("a sum", "SELECT 1 FROM t GROUP BY ^a + 1"),
        ("a sum in brackets", "SELECT 1 FROM t GROUP BY ^(a + 1)"),
        ("a text", "SELECT 1 FROM t GROUP BY ^'x'"),
        ("NULL", "SELECT 1 FROM t GROUP BY ^NULL"),
        ("a condition", "SELECT 1 FROM t GROUP BY ^a = 1"),
        ("an aggregate", "SELECT 1 FROM t GROUP BY ^COUNT(*)"),
        ("a position of a constant", "SELECT 1 FROM t GROUP BY ^1"),
        (
            "a position of an aggregate",
            "SELECT COUNT(*) FROM t GROUP BY ^1",
        ),
        (
            "an alias of an aggregate",
            "SELECT COUNT(*) AS x FROM t GROUP BY ^x",
        ),
        (
            "an unknown name in brackets",
            "SELECT 1 FROM t GROUP BY ^(b)",
        ),
        ("the second", "SELECT 1 FROM t GROUP BY a, ^-a"),
    ];
    for (name, text) in rows {
        is_faulty(&rt, name, text, "GroupRule")?;
    }
    Ok(())
}

#[test]
fn tells_aggregates_where_none_stands(rt: HostRuntime) -> Result<(), Fail> {
    let rows = [
        ("in WHERE", "SELECT 1 FROM t WHERE ^SUM(a) > 1"),
        ("in ON", "SELECT 1 FROM t JOIN v ON ^COUNT(*) = 1"),
        ("in an aggregate", "SELECT SUM(^COUNT(a)) FROM t"),
        ("within an aggregate", "SELECT MAX(1 + ^MIN(a)) FROM t"),
        (
            "as the second of two",
            "SELECT 1 FROM t WHERE a = 1 AND ^SUM(a) > 1",
        ),
        (
            "by an alias in an aggregate",
            "SELECT COUNT(*) AS x FROM t HAVING MAX(^x) > 1",
        ),
    ];
    for (name, text) in rows {
        is_faulty(&rt, name, text, "GroupRule")?;
    }
    Ok(())
}

#[test]
fn tells_columns_that_are_not_grouped(rt: HostRuntime) -> Result<(), Fail> {
    let rows = [
        ("before an aggregate", "SELECT ^a, COUNT(*) FROM t"),
        ("behind an aggregate", "SELECT COUNT(*), ^a FROM t"),
        ("beside a grouped one", "SELECT a, ^b FROM u GROUP BY a"),
        ("within an expression", "SELECT 1 + ^b FROM u GROUP BY a"),
        ("in ORDER BY", "SELECT a FROM u GROUP BY a ORDER BY ^b"),
        ("in HAVING", "SELECT a FROM u GROUP BY a HAVING ^b = 1"),
        ("a star", "SELECT ^* FROM u GROUP BY a"),
        (
            "a star of a table",
            "SELECT t.*, ^u.* FROM t, u GROUP BY t.a",
        ),
        (
            "another table's",
            "SELECT ^y.a FROM t AS x, t AS y GROUP BY x.a",
        ),
        (
            "an aggregate in ORDER BY",
            "SELECT 1 FROM t ORDER BY ^a, COUNT(*)",
        ),
        (
            "an aggregate in HAVING",
            "SELECT 1 FROM t HAVING COUNT(*) > 0 AND ^a = 1",
        ),
        ("an aggregate in WHERE", "SELECT ^a FROM t WHERE SUM(a) > 1"),
        (
            "a column that an alias hides",
            "SELECT ^c AS b FROM u GROUP BY b",
        ),
        ("a sum by its position", "SELECT ^a + 1 FROM t GROUP BY 1"),
    ];
    for (name, text) in rows {
        is_faulty(&rt, name, text, "GroupRule")?;
    }
    Ok(())
}

#[test]
fn tells_having_without_groups(rt: HostRuntime) -> Result<(), Fail> {
    let rows = [
        ("a constant", "SELECT 1 FROM t ^HAVING 1 = 1"),
        ("a column", "SELECT a FROM t ^HAVING a = 1"),
        ("before a wrong name", "SELECT a FROM t ^HAVING nope = 1"),
    ];
    for (name, text) in rows {
        is_faulty(&rt, name, text, "GroupRule")?;
    }
    Ok(())
}
