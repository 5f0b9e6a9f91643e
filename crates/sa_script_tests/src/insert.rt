//! INSERT: the rows that it puts into its table, and its faults.

use crate::lines::{has_rows, is_faulty, is_faulty_row};
use std::alloc::Global;
use std::process::Abort;
use std::test::Fail;

/// Behind the definition of t, the statements give these rows.
fn gives<R: Abort + Alloc<A = Global>>(
    rt: &R,
    name: &str,
    statements: &str,
    wanted: &str,
) -> Result<(), Fail> {
    let text = format!(in rt.alloc(); "CREATE TABLE t (a INT, b VARCHAR(3)); {statements}")?;
    has_rows(rt, name, text.as_str(), wanted)
}

#[test]
fn puts_values_in_their_columns(rt: HostRuntime) -> Result<(), Fail> {
    let rows = [
        ("one tuple", "INSERT INTO t VALUES (1, 'x')", "1 'x'"),
        (
            "three tuples, in their order",
            "INSERT INTO t VALUES (3, 'x'), (1, 'y'), (2, '');",
            "3 'x' | 1 'y' | 2 ''",
        ),
        (
            "two statements, in their order",
            "INSERT INTO t VALUES (2, 'x'); INSERT INTO t VALUES (1, 'y')",
            "2 'x' | 1 'y'",
        ),
        (
            "NULL and signs",
            "INSERT INTO t VALUES (NULL, NULL), (-1, 'x'), (+1, \"y\")",
            "NULL NULL | -1 'x' | 1 'y'",
        ),
        (
            "both ends of INT",
            "INSERT INTO t VALUES (2147483647, NULL), (-2147483648, NULL)",
            "2147483647 NULL | -2147483648 NULL",
        ),
        (
            "three characters",
            "INSERT INTO t VALUES (1, 'äöü')",
            "1 'äöü'",
        ),
    ];
    for (name, text, wanted) in rows {
        gives(&rt, name, text, wanted)?;
    }
    Ok(())
}

#[test]
fn puts_values_where_names_say(rt: HostRuntime) -> Result<(), Fail> {
    let rows = [
        (
            "the columns in their order",
            "INSERT INTO t (a, b) VALUES (1, 'x')",
            "1 'x'",
        ),
        (
            "the columns the other way round",
            "INSERT INTO t (b, a) VALUES ('x', 1), ('y', 2)",
            "1 'x' | 2 'y'",
        ),
        (
            "the second column alone",
            "INSERT INTO t (b) VALUES ('x'), (NULL), ('y')",
            "NULL 'x' | NULL NULL | NULL 'y'",
        ),
        (
            "the first column alone, in backquotes",
            "INSERT INTO t (`a`) VALUES (7)",
            "7 NULL",
        ),
    ];
    for (name, text, wanted) in rows {
        gives(&rt, name, text, wanted)?;
    }
    Ok(())
}

/// A table is found by its name, which is compared byte for byte.
#[test]
fn finds_the_table(rt: HostRuntime) -> Result<(), Fail> {
    let text = "CREATE TABLE t (a INT); CREATE TABLE T (a INT); CREATE TABLE u (a BIGINT);
        INSERT INTO u VALUES (9223372036854775807), (-9223372036854775808); INSERT INTO T VALUES (2);
        INSERT INTO t VALUES (1)";
    let wanted = "1 / 2 / 9223372036854775807 | -9223372036854775808";
    has_rows(&rt, "three tables", text, wanted)
}

#[test]
fn tells_faults_of_names(rt: HostRuntime) -> Result<(), Fail> {
    let rows = [
        ("no table", "INSERT INTO ^t VALUES (1)", "UnknownTable"),
        (
            "a table in other letters",
            "CREATE TABLE t (a INT); INSERT INTO ^T VALUES (1)",
            "UnknownTable",
        ),
        (
            "a table that is made later",
            "INSERT INTO ^t VALUES (1); CREATE TABLE t (a INT)",
            "UnknownTable",
        ),
        (
            "no column",
            "CREATE TABLE t (a INT); INSERT INTO t (a, ^b) VALUES (1, 2)",
            "UnknownColumn",
        ),
        (
            "a column twice",
            "CREATE TABLE t (a INT, b INT); INSERT INTO t (a, b, ^a) VALUES (1, 2, 3)",
            "DuplicateName",
        ),
        (
            "no column, twice",
            "CREATE TABLE t (a INT); INSERT INTO t (^c, c) VALUES (1, 2)",
            "UnknownColumn",
        ),
        (
            "a column twice before no column",
            "CREATE TABLE t (a INT); INSERT INTO t (a, ^a, c) VALUES (1, 2, 3)",
            "DuplicateName",
        ),
        (
            "no table, and no column",
            "CREATE TABLE t (a INT); INSERT INTO ^u (b) VALUES (1)",
            "UnknownTable",
        ),
        (
            "no column, and a tuple of the wrong length",
            "CREATE TABLE t (a INT); INSERT INTO t (^b) VALUES (1, 2)",
            "UnknownColumn",
        ),
    ];
    for (name, text, kind) in rows {
        is_faulty(&rt, name, text, kind)?;
    }
    Ok(())
}

/// A fault of a tuple stands at its bracket, with the tuple's number in its statement.
#[test]
fn tells_faults_of_tuples(rt: HostRuntime) -> Result<(), Fail> {
    let rows = [
        (
            "too few values",
            "CREATE TABLE t (a INT, b INT); INSERT INTO t VALUES (1, 2), (3, 4), ^(5), (6, 7)",
            "Arity",
            3,
        ),
        (
            "too many values",
            "CREATE TABLE t (a INT); INSERT INTO t VALUES ^(1, 2)",
            "Arity",
            1,
        ),
        (
            "fewer values than names",
            "CREATE TABLE t (a INT, b INT); INSERT INTO t (b, a) VALUES (1, 2), ^(3)",
            "Arity",
            2,
        ),
        (
            "more values than names, as many as columns",
            "CREATE TABLE t (a INT, b INT); INSERT INTO t (a) VALUES ^(1, 2)",
            "Arity",
            1,
        ),
        (
            "NULL",
            "CREATE TABLE t (a INT NOT NULL); INSERT INTO t VALUES (1), ^(NULL)",
            "NullNotAllowed",
            2,
        ),
        (
            "NULL in a column that isn't listed",
            "CREATE TABLE t (a INT PRIMARY KEY, b INT); INSERT INTO t (b) VALUES ^(1)",
            "NullNotAllowed",
            1,
        ),
        (
            "a text for a number",
            "CREATE TABLE t (a INT); INSERT INTO t VALUES (1), ^('1')",
            "TypeMismatch",
            2,
        ),
        (
            "a number for a text",
            "CREATE TABLE t (a VARCHAR(5)); INSERT INTO t VALUES ^(1)",
            "TypeMismatch",
            1,
        ),
    ];
    for (name, text, kind, row) in rows {
        is_faulty_row(&rt, name, text, kind, row)?;
    }
    Ok(())
}

#[test]
fn tells_faults_of_ranges_and_keys(rt: HostRuntime) -> Result<(), Fail> {
    let rows = [
        (
            "above INT",
            "CREATE TABLE t (a INT); INSERT INTO t VALUES ^(2147483648)",
            "OutOfRange",
            1,
        ),
        (
            "below INT",
            "CREATE TABLE t (a INT); INSERT INTO t VALUES (0), ^(-2147483649)",
            "OutOfRange",
            2,
        ),
        (
            "above BIGINT",
            "CREATE TABLE t (a BIGINT); INSERT INTO t VALUES ^(9223372036854775808)",
            "OutOfRange",
            1,
        ),
        (
            "38 digits",
            "CREATE TABLE t (a BIGINT); INSERT INTO t VALUES ^(-99999999999999999999999999999999999999)",
            "OutOfRange",
            1,
        ),
        (
            "four characters",
            "CREATE TABLE t (a VARCHAR(3)); INSERT INTO t VALUES ('äöü'), ^('abcd')",
            "TooLong",
            2,
        ),
        (
            "a key twice in one statement",
            "CREATE TABLE t (a INT PRIMARY KEY); INSERT INTO t VALUES (1), ^(1);",
            "DuplicateKey",
            2,
        ),
        (
            "a key of an earlier statement",
            "CREATE TABLE t (a INT UNIQUE); INSERT INTO t VALUES (1), (2); INSERT INTO t VALUES (3), ^(2)",
            "DuplicateKey",
            2,
        ),
        (
            "a key of texts, with a column list",
            "CREATE TABLE t (a INT, b VARCHAR(3) UNIQUE); INSERT INTO t (b) VALUES ('x'), (NULL), (NULL), ^('x')",
            "DuplicateKey",
            4,
        ),
    ];
    for (name, text, kind, row) in rows {
        is_faulty_row(&rt, name, text, kind, row)?;
    }
    Ok(())
}

/// The earlier tuple is told, and in one tuple the earlier fault of the list.
#[test]
fn tells_the_first_of_two_faults(rt: HostRuntime) -> Result<(), Fail> {
    let rows = [
        (
            "two tuples",
            "CREATE TABLE t (a INT); INSERT INTO t VALUES (1), ^('x'), (1, 2)",
            "TypeMismatch",
            2,
        ),
        (
            "two columns",
            "CREATE TABLE t (a INT, b INT NOT NULL); INSERT INTO t VALUES ^(2147483648, NULL)",
            "OutOfRange",
            1,
        ),
        (
            "two columns, listed the other way round",
            "CREATE TABLE t (a INT, b INT NOT NULL); INSERT INTO t (b, a) VALUES ^(NULL, 'x')",
            "TypeMismatch",
            1,
        ),
        (
            "a column and a key",
            "CREATE TABLE t (a INT UNIQUE, b INT); INSERT INTO t VALUES (1, 1), ^(1, 'x')",
            "TypeMismatch",
            2,
        ),
        (
            "two statements",
            "CREATE TABLE t (a INT); INSERT INTO t VALUES ^('x'); INSERT INTO u VALUES (1)",
            "TypeMismatch",
            1,
        ),
    ];
    for (name, text, kind, row) in rows {
        is_faulty_row(&rt, name, text, kind, row)?;
    }
    Ok(())
}
