//! Each kind of fault alone, at its place.

use crate::lines::{bytes_fail, is_faulty, repeated};
use std::alloc::Global;
use std::process::Abort;
use std::test::Fail;

/// Behind a piece that is right, the fault stands at the mark.
fn fails<R: Abort + Alloc<A = Global>>(
    rt: &R,
    name: &str,
    pieces: &str,
    kind: &str,
) -> Result<(), Fail> {
    let text = format!(in rt.alloc(); "CREATE TABLE t (a INT);\n{pieces}")?;
    is_faulty(rt, name, text.as_str(), kind)
}

#[test]
fn tells_faults_of_cutting(rt: HostRuntime) -> Result<(), Fail> {
    let rows = [
        (
            "a text without end",
            "INSERT INTO t VALUES (^'x;",
            "OpenText",
        ),
        (
            "a text in double quotes",
            "INSERT INTO t VALUES (^\"x';",
            "OpenText",
        ),
        (
            "a quoted name without end",
            "INSERT INTO ^`t VALUES (1);",
            "OpenText",
        ),
        ("a comment without end", "QUANTUM 4 ^/* ; ;", "OpenComment"),
        ("a comment alone", " ^/*", "OpenComment"),
        (
            "a text of a session without end",
            "SESSION 1; SELECT ^'x;",
            "OpenText",
        ),
        (
            "a comment behind the schedule",
            "SESSION 1; SCHEDULE 1; ^/* x",
            "OpenComment",
        ),
    ];
    for (name, text, kind) in rows {
        fails(&rt, name, text, kind)?;
    }
    Ok(())
}

#[test]
fn tells_faults_of_lexing(rt: HostRuntime) -> Result<(), Fail> {
    let rows = [
        ("a byte of no token", "QUANTUM ^? 4;", "BadByte"),
        (
            "a letter directly behind a number",
            "TURNS 12^a;",
            "BadByte",
        ),
        (
            "a quoted name of nothing",
            "INSERT INTO ^`` VALUES (1);",
            "BadByte",
        ),
        (
            "39 digits",
            "QUANTUM ^100000000000000000000000000000000000000;",
            "NumberTooLong",
        ),
        (
            "a byte of no token between sessions",
            "SESSION 1; SESSION ^?;",
            "BadByte",
        ),
    ];
    for (name, text, kind) in rows {
        fails(&rt, name, text, kind)?;
    }
    Ok(())
}

#[test]
fn tells_texts_that_are_too_long(rt: HostRuntime) -> Result<(), Fail> {
    let text = repeated(rt.alloc(), "INSERT INTO t VALUES (1), (^'", "x", 256, "');")?;
    fails(&rt, "256 bytes", text.as_str(), "TextTooLong")?;
    let text = repeated(
        rt.alloc(),
        "INSERT INTO ^none VALUES (1), ('",
        "x",
        255,
        "');",
    )?;
    fails(&rt, "255 bytes", text.as_str(), "UnknownTable")
}

#[test]
fn tells_faults_of_the_grammar(rt: HostRuntime) -> Result<(), Fail> {
    let rows = [
        (
            "a definition without a table",
            "CREATE TABLE ^(a INT);",
            "Syntax",
        ),
        ("a directive without its number", "QUANTUM^;", "Syntax"),
        ("a word for a number", "TURNS ^x;", "Syntax"),
        ("two numbers", "TURNS 1 ^2;", "Syntax"),
        ("a sign in front of a number", "QUANTUM ^-1;", "Syntax"),
        ("LOAD without DATA", "LOAD ^t BYTES 1;", "Syntax"),
        ("a schedule of nothing", "SESSION 1; SCHEDULE^;", "Syntax"),
        (
            "a comma in a schedule",
            "SESSION 1; SCHEDULE 1^, 1;",
            "Syntax",
        ),
        (
            "a query among the set-up",
            "^SELECT a FROM t;",
            "NotSupported",
        ),
        (
            "another kind of statement",
            "^DROP TABLE t;",
            "NotSupported",
        ),
        (
            "another kind of column",
            "CREATE TABLE u (a ^DOUBLE);",
            "NotSupported",
        ),
    ];
    for (name, text, kind) in rows {
        fails(&rt, name, text, kind)?;
    }
    Ok(())
}

/// A bracket and 63 times NOT are as deep as it goes.
#[test]
fn tells_what_is_too_deep(rt: HostRuntime) -> Result<(), Fail> {
    let alloc = rt.alloc();
    let deep = repeated(
        alloc,
        "CREATE TABLE u (a INT",
        " NOT NULL",
        63,
        " ^NOT NULL);",
    )?;
    fails(&rt, "NOT for the 64th time", deep.as_str(), "TooDeep")?;
    let most = repeated(alloc, "CREATE TABLE ^t (a INT", " NOT NULL", 63, ");")?;
    fails(&rt, "NOT 63 times", most.as_str(), "DuplicateName")
}

#[test]
fn tells_faults_of_numbers(rt: HostRuntime) -> Result<(), Fail> {
    let rows = [
        ("a quantum of 0", "QUANTUM ^0;", "BadNumber"),
        ("a quantum of 65", "QUANTUM 64; QUANTUM ^65;", "BadNumber"),
        (
            "a quantum of 38 digits",
            "QUANTUM ^99999999999999999999999999999999999999;",
            "BadNumber",
        ),
        ("no turn", "TURNS ^0;", "BadNumber"),
        (
            "a turn too many",
            "TURNS 1000000000; TURNS ^1000000001;",
            "BadNumber",
        ),
        ("the second session first", "SESSION ^2;", "SessionOrder"),
        ("session 0", "SESSION ^0;", "SessionOrder"),
        ("a session twice", "SESSION 1; SESSION ^1;", "SessionOrder"),
        (
            "a session left out",
            "SESSION 1; SESSION ^3;",
            "SessionOrder",
        ),
        ("session 17 first", "SESSION ^17;", "SessionOrder"),
        (
            "a schedule without sessions",
            "SCHEDULE ^1;",
            "UnknownSession",
        ),
        (
            "a schedule of session 0",
            "SESSION 1; SCHEDULE 1 ^0;",
            "UnknownSession",
        ),
        (
            "a schedule of one session more",
            "SESSION 1; SESSION 2; SCHEDULE 2 1 ^3 4;",
            "UnknownSession",
        ),
    ];
    for (name, text, kind) in rows {
        fails(&rt, name, text, kind)?;
    }
    Ok(())
}

#[test]
fn tells_what_stands_behind_the_schedule(rt: HostRuntime) -> Result<(), Fail> {
    let rows = [
        (
            "a statement",
            "SESSION 1; SCHEDULE 1; ^SELECT 1;",
            "AfterSchedule",
        ),
        (
            "another schedule",
            "SESSION 1; SCHEDULE 1;\t^SCHEDULE 1",
            "AfterSchedule",
        ),
        (
            "a session",
            "SESSION 1; SCHEDULE 1; ; ^SESSION 2;",
            "AfterSchedule",
        ),
        (
            "something behind a comment",
            "SESSION 1; SCHEDULE 1; /* ; */ ^x;",
            "AfterSchedule",
        ),
        (
            "a number",
            "SESSION 1; SCHEDULE 1; # ;\n^1",
            "AfterSchedule",
        ),
    ];
    for (name, text, kind) in rows {
        fails(&rt, name, text, kind)?;
    }
    Ok(())
}

#[test]
fn tells_bytes_that_are_no_text(rt: HostRuntime) -> Result<(), Fail> {
    bytes_fail(
        &rt,
        "a byte of no character",
        b"QUANTUM 4;\xff",
        "NotUtf8 at 10",
    )?;
    bytes_fail(&rt, "half a character", b"TURNS 1; # \xc3", "NotUtf8 at 11")?;
    bytes_fail(
        &rt,
        "behind a faulty piece",
        b"QUANTUM 65; # \xe2\x82.",
        "NotUtf8 at 14",
    )
}
