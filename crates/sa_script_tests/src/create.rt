//! CREATE TABLE: the tables that it makes, and its faults.

use crate::lines::{is_defined, is_faulty};
use std::alloc::Global;
use std::process::Abort;
use std::test::Fail;

#[test]
fn makes_columns(rt: HostRuntime) -> Result<(), Fail> {
    let rows = [
        ("one column", "CREATE TABLE t (a INT)", "t: a INT"),
        (
            "each kind",
            "CREATE TABLE t (a INTEGER, b BIGINT(20), c VARCHAR(0), d VARCHAR(16383));",
            "t: a INT, b BIGINT, c VARCHAR(0), d VARCHAR(16383)",
        ),
        (
            "each option",
            "CREATE TABLE t (a INT NOT NULL, b INT NULL, c INT DEFAULT NULL)",
            "t: a INT NOT NULL, b INT, c INT",
        ),
        (
            "names in backquotes, small letters and an engine",
            "create table `a b` (`select` int) engine = x",
            "a b: select INT",
        ),
        (
            "names that differ in their case alone",
            "CREATE TABLE t (a INT, A INT); CREATE TABLE T (a INT)",
            "t: a INT, A INT / T: a INT",
        ),
    ];
    for (name, text, wanted) in rows {
        is_defined(&rt, name, text, wanted)?;
    }
    Ok(())
}

#[test]
fn makes_keys(rt: HostRuntime) -> Result<(), Fail> {
    let rows = [
        (
            "a primary key, whose column is NOT NULL",
            "CREATE TABLE t (a INT PRIMARY KEY, b INT)",
            "t: a INT NOT NULL, b INT; PRIMARY primary 0",
        ),
        (
            "a primary key over two columns, in its order",
            "CREATE TABLE t (a INT, b INT, c INT, PRIMARY KEY (c, a))",
            "t: a INT NOT NULL, b INT, c INT NOT NULL; PRIMARY primary 2 0",
        ),
        (
            "keys in the order of the text, a column's own at its column",
            "CREATE TABLE t (a INT, KEY (b), b INT UNIQUE, INDEX x (b, a), UNIQUE y (a))",
            "t: a INT, b INT; k1 key 1; k2 unique 1; x key 1 0; y unique 0",
        ),
        (
            "a primary key is counted with the others",
            "CREATE TABLE t (KEY (a), a INT PRIMARY KEY, KEY (a))",
            "t: a INT NOT NULL; k1 key 0; PRIMARY primary 0; k3 key 0",
        ),
        (
            "four parts",
            "CREATE TABLE t (a INT, b INT, c INT, d INT, KEY k (d, c, b, a))",
            "t: a INT, b INT, c INT, d INT; k key 3 2 1 0",
        ),
    ];
    for (name, text, wanted) in rows {
        is_defined(&rt, name, text, wanted)?;
    }
    Ok(())
}

#[test]
fn tells_faults_of_names(rt: HostRuntime) -> Result<(), Fail> {
    let rows = [
        (
            "a table's name twice",
            "CREATE TABLE t (a INT); CREATE TABLE ^t (b INT);",
            "DuplicateName",
        ),
        (
            "a column's name twice",
            "CREATE TABLE ^t (a INT, b INT, a INT);",
            "DuplicateName",
        ),
        (
            "a key's name twice",
            "CREATE TABLE ^t (a INT, KEY k (a), UNIQUE k (a));",
            "DuplicateName",
        ),
        (
            "the name that an unnamed key gets",
            "CREATE TABLE ^t (a INT, KEY k2 (a), KEY (a));",
            "DuplicateName",
        ),
        (
            "a key with the primary key's name",
            "CREATE TABLE ^t (a INT PRIMARY KEY, KEY `PRIMARY` (a));",
            "DuplicateName",
        ),
        (
            "a column twice in a key",
            "CREATE TABLE ^t (a INT, KEY (a, a));",
            "DuplicateName",
        ),
        (
            "no column twice in a key",
            "CREATE TABLE ^t (a INT, KEY (b, b));",
            "DuplicateName",
        ),
        (
            "a column that isn't there",
            "CREATE TABLE ^t (a INT, KEY (b));",
            "UnknownColumn",
        ),
        (
            "two columns that aren't there",
            "CREATE TABLE ^t (a INT, KEY (b, a, c));",
            "UnknownColumn",
        ),
        (
            "two primary keys",
            "CREATE TABLE ^t (a INT PRIMARY KEY, PRIMARY KEY (a));",
            "SecondPrimary",
        ),
    ];
    for (name, text, kind) in rows {
        is_faulty(&rt, name, text, kind)?;
    }
    Ok(())
}

/// Of two faults in one definition the first of their list is told, wherever they stand.
#[test]
fn tells_the_first_of_two_faults(rt: HostRuntime) -> Result<(), Fail> {
    let rows = [
        (
            "five parts, and a column twice",
            "CREATE TABLE ^t (a INT, KEY (a, b, c, d, e), a INT);",
            "TooManyParts",
        ),
        (
            "a column twice, and one that isn't there",
            "CREATE TABLE ^t (KEY (b), a INT, a INT);",
            "DuplicateName",
        ),
        (
            "two primary keys, and a column that isn't there",
            "CREATE TABLE ^t (a INT PRIMARY KEY, PRIMARY KEY (b));",
            "UnknownColumn",
        ),
        (
            "the earlier definition",
            "CREATE TABLE ^t (a INT, KEY (b)); CREATE TABLE u (a INT, a INT);",
            "UnknownColumn",
        ),
    ];
    for (name, text, kind) in rows {
        is_faulty(&rt, name, text, kind)?;
    }
    Ok(())
}

/// `first`, then `again` so many times with its number after it, and then `last`.
fn numbered(
    alloc: Global,
    first: &str,
    again: &str,
    behind: &str,
    times: usize,
    last: &str,
) -> Result<String, Fail> {
    let mut text = String::from_str(alloc, first)?;
    for number in 0..times {
        text.push_str(format!(in alloc; "{again}{number}{behind}")?.as_str())?;
    }
    text.push_str(last)?;
    Ok(text)
}

/// The definition with so many columns, keys or parts, and all tables up to it, are made.
fn is_made<R: Abort + Alloc<A = Global>>(rt: &R, name: &str, text: &str) -> Result<(), Fail> {
    let checked = format!(in rt.alloc(); "{text}; INSERT INTO ^none VALUES (1)")?;
    is_faulty(rt, name, checked.as_str(), "UnknownTable")
}

#[test]
fn keeps_the_limit_of_columns(rt: HostRuntime) -> Result<(), Fail> {
    let alloc = rt.alloc();
    let most = numbered(alloc, "CREATE TABLE t (a INT", ", a", " INT", 31, ")")?;
    is_made(&rt, "32 columns", most.as_str())?;
    let many = numbered(
        alloc,
        "CREATE TABLE ^t (a INT",
        ", a",
        " INT",
        32,
        ", KEY (a, a))",
    )?;
    is_faulty(&rt, "33 columns", many.as_str(), "TooManyColumns")
}

#[test]
fn keeps_the_limit_of_keys(rt: HostRuntime) -> Result<(), Fail> {
    let alloc = rt.alloc();
    let most = numbered(alloc, "CREATE TABLE t (a INT", ", KEY x", " (a)", 8, ")")?;
    is_made(&rt, "8 keys", most.as_str())?;
    let many = numbered(alloc, "CREATE TABLE ^t (a INT", ", KEY x", " (a)", 9, ")")?;
    is_faulty(&rt, "9 keys", many.as_str(), "TooManyKeys")
}

#[test]
fn keeps_the_limit_of_parts(rt: HostRuntime) -> Result<(), Fail> {
    let four = "CREATE TABLE t (a INT, b INT, c INT, d INT, e INT, KEY (a, b, c, d))";
    is_made(&rt, "4 parts", four)?;
    let five = "CREATE TABLE ^t (a INT, b INT, c INT, d INT, e INT, KEY (a, b, c, d, e))";
    is_faulty(&rt, "5 parts", five, "TooManyParts")
}

#[test]
fn keeps_the_limit_of_tables(rt: HostRuntime) -> Result<(), Fail> {
    let alloc = rt.alloc();
    let most = numbered(alloc, "", "CREATE TABLE t", " (a INT);", 32, "")?;
    is_made(&rt, "32 tables", most.as_str())?;
    let many = numbered(
        alloc,
        "",
        "CREATE TABLE t",
        " (a INT);",
        32,
        "CREATE TABLE ^t (a INT)",
    )?;
    is_faulty(&rt, "33 tables", many.as_str(), "TooManyTables")
}
