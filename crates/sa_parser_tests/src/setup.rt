//! The statements that set tables up.

use crate::checks::sets_up;
use std::test::Fail;

#[test]
fn reads_columns(rt: HostRuntime) -> Result<(), Fail> {
    let rows = [
        ("one column", "CREATE TABLE t (a INT)", "t; a INT"),
        (
            "two kinds",
            "create table `t` (a integer, b bigint(20))",
            "t; a INT; b BIGINT",
        ),
        (
            "sizes of texts, and NOT NULL",
            "CREATE TABLE t (a VARCHAR(16383) NOT NULL, b VARCHAR(0))",
            "t; a VARCHAR(16383)!; b VARCHAR(0)",
        ),
        (
            "options that say nothing",
            "CREATE TABLE t (a INT(11) NULL DEFAULT NULL)",
            "t; a INT",
        ),
        (
            "engines",
            "CREATE TABLE t (a INT) ENGINE InnoDB ENGINE = Aria",
            "t; a INT",
        ),
    ];
    for (name, text, wanted) in rows {
        sets_up(&rt, name, text, wanted)?;
    }
    Ok(())
}

#[test]
fn reads_keys(rt: HostRuntime) -> Result<(), Fail> {
    let rows = [
        (
            "keys at columns",
            "CREATE TABLE t (a INT NOT NULL PRIMARY KEY, b INT UNIQUE KEY)",
            "t; a INT!; b INT; PRIMARY (a); UNIQUE (b)",
        ),
        (
            "keys behind columns",
            "CREATE TABLE t (a INT UNIQUE, b INT, PRIMARY KEY (b, a), KEY (b))",
            "t; a INT; b INT; UNIQUE (a); PRIMARY (b,a); KEY (b)",
        ),
        (
            "unique keys, with names and without",
            "CREATE TABLE t (UNIQUE (a), UNIQUE KEY x (a), UNIQUE INDEX (b), a INT)",
            "t; a INT; UNIQUE (a); UNIQUE x(a); UNIQUE (b)",
        ),
        (
            "keys of both words",
            "CREATE TABLE t (a INT, INDEX x (a), INDEX (a), KEY `key` (a))",
            "t; a INT; KEY x(a); KEY (a); KEY key(a)",
        ),
    ];
    for (name, text, wanted) in rows {
        sets_up(&rt, name, text, wanted)?;
    }
    Ok(())
}

#[test]
fn reads_rows(rt: HostRuntime) -> Result<(), Fail> {
    let rows = [
        ("one row", "INSERT INTO t VALUES (1)", "t; at 21: 1"),
        (
            "columns and two rows",
            "INSERT INTO t (a, b) VALUES (1, 'x'), (NULL, -2)",
            "t a b; at 28: 1 'x'; at 38: NULL -2",
        ),
        (
            "a plus, minus zero and a number past 64 bits",
            "insert into t values (+3, -0, 9223372036854775808)",
            "t; at 21: 3 0 big 9223372036854775808",
        ),
        (
            "the least numbers of 64 bits and of more",
            "INSERT INTO t VALUES (-9223372036854775808, -9223372036854775809)",
            "t; at 21: -9223372036854775808 big -9223372036854775809",
        ),
    ];
    for (name, text, wanted) in rows {
        sets_up(&rt, name, text, wanted)?;
    }
    Ok(())
}
