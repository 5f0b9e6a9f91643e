//! Which tables and columns names stand for.

use crate::checks::{is_faulty, is_right};
use std::test::Fail;

#[test]
fn finds_tables(rt: HostRuntime) -> Result<(), Fail> {
    let rows = [
        ("one table", "SELECT a FROM t"),
        ("two tables", "SELECT t.a FROM t, u"),
        ("one table by two aliases", "SELECT x.a FROM t AS x, t AS y"),
        (
            "aliases that are other tables' names",
            "SELECT u.a FROM t AS u, u AS t",
        ),
        ("a name in backquotes", "SELECT `a` FROM `t`"),
    ];
    for (name, text) in rows {
        is_right(&rt, name, text)?;
    }
    Ok(())
}

#[test]
fn tells_unknown_tables(rt: HostRuntime) -> Result<(), Fail> {
    let rows = [
        ("the first", "SELECT 1 FROM ^x"),
        ("the second", "SELECT a FROM t, ^x"),
        ("joined", "SELECT a FROM t JOIN ^x ON 1 = 1"),
        ("with an alias", "SELECT 1 FROM ^x AS t"),
        ("another case", "SELECT 1 FROM ^T"),
        ("another case in backquotes", "SELECT 1 FROM ^`T`"),
        ("its columns", "SELECT * FROM ^x"),
        ("its own columns", "SELECT x.* FROM ^x"),
        ("a star of an unknown table", "SELECT ^x.* FROM t"),
        (
            "a star of a table that has an alias",
            "SELECT ^t.* FROM t AS x",
        ),
    ];
    for (name, text) in rows {
        is_faulty(&rt, name, text, "UnknownTable")?;
    }
    Ok(())
}

#[test]
fn tells_equal_aliases(rt: HostRuntime) -> Result<(), Fail> {
    let rows = [
        ("names", "SELECT 1 FROM t, ^t"),
        ("aliases", "SELECT 1 FROM t AS x, u AS ^x"),
        ("aliases without AS", "SELECT 1 FROM t x, u ^x"),
        ("an alias and a name", "SELECT 1 FROM u AS t, ^t"),
        ("a name and an alias", "SELECT 1 FROM t, u AS ^t"),
        ("three", "SELECT 1 FROM t, ^t, t"),
        ("a column of the first", "SELECT x.b FROM u AS x, t AS ^x"),
        ("joined", "SELECT 1 FROM t JOIN u ^t ON 1 = 1"),
    ];
    for (name, text) in rows {
        is_faulty(&rt, name, text, "DuplicateAlias")?;
    }
    Ok(())
}

#[test]
fn tells_unknown_columns(rt: HostRuntime) -> Result<(), Fail> {
    let rows = [
        ("a plain name", "SELECT ^b FROM t"),
        ("of a table", "SELECT ^t.b FROM t"),
        ("of an unknown table", "SELECT ^x.a FROM t"),
        ("of a table that has an alias", "SELECT ^t.a FROM t AS x"),
        ("of a table that isn't there", "SELECT ^a FROM x"),
        (
            "of the second table with an alias",
            "SELECT ^x.b FROM t AS x, u AS x",
        ),
        ("another case", "SELECT ^A FROM t"),
        ("another case in backquotes", "SELECT ^`A` FROM t"),
        ("another case of an alias", "SELECT ^`X`.a FROM t AS x"),
        ("in WHERE", "SELECT 1 FROM t WHERE ^b = 1"),
        (
            "in a later table than ON's",
            "SELECT 1 FROM t JOIN u ON ^d = 1 JOIN v ON 1 = 1",
        ),
        (
            "of a later table than ON's",
            "SELECT 1 FROM t JOIN u ON t.a = ^v.d JOIN v ON 1 = 1",
        ),
        ("in an aggregate", "SELECT SUM(^b) FROM t"),
    ];
    for (name, text) in rows {
        is_faulty(&rt, name, text, "UnknownColumn")?;
    }
    Ok(())
}

#[test]
fn tells_ambiguous_columns(rt: HostRuntime) -> Result<(), Fail> {
    let rows = [
        ("one table twice", "SELECT ^a FROM t AS x, t AS y"),
        ("two tables", "SELECT ^a FROM t, u"),
        ("three tables", "SELECT ^a FROM t, v, u"),
        (
            "in the ON of the second",
            "SELECT 1 FROM t JOIN u ON ^a = 1",
        ),
        (
            "in the ON of the third",
            "SELECT 1 FROM t JOIN u ON b = 1 JOIN u AS x ON ^b = 1",
        ),
        (
            "in WHERE",
            "SELECT 1 FROM t JOIN u ON b = 1 JOIN u AS x ON x.b = 1 WHERE ^b = 1",
        ),
    ];
    for (name, text) in rows {
        is_faulty(&rt, name, text, "Ambiguous")?;
    }
    Ok(())
}

#[test]
fn finds_columns(rt: HostRuntime) -> Result<(), Fail> {
    let rows = [
        ("the only one", "SELECT b FROM t, u"),
        ("of a table", "SELECT u.a, t.a FROM t, u"),
        ("in ON", "SELECT 1 FROM t JOIN u ON t.a = u.a"),
        (
            "in ON, before another table has it",
            "SELECT 1 FROM t JOIN u ON b = 1 JOIN u AS x ON x.b = 1",
        ),
        ("stars", "SELECT *, u.*, t.* FROM t, u"),
    ];
    for (name, text) in rows {
        is_right(&rt, name, text)?;
    }
    Ok(())
}
