//! Which of two faults is told.

use crate::lines::{is_faulty, marked, repeated, runs};
use std::alloc::Global;
use std::process::Abort;
use std::test::Fail;

/// In one piece the search for its end comes first, then the lexer, then the grammar, then the rest from
/// left to right, wherever the faults stand.
#[test]
fn tells_the_first_fault_of_a_piece(rt: HostRuntime) -> Result<(), Fail> {
    let rows = [
        (
            "a byte of no token, and an open text",
            "QUANTUM ? ^'x",
            "OpenText",
        ),
        (
            "too long a number, and an open comment",
            "; QUANTUM 100000000000000000000000000000000000000 ^/*",
            "OpenComment",
        ),
        ("a faulty word, and an open name", "; DROP ^`t", "OpenText"),
        (
            "a number out of range, and an open text",
            "QUANTUM 65 ^\"",
            "OpenText",
        ),
        (
            "a faulty word, and a byte of no token",
            "; DROP TABLE ^?",
            "BadByte",
        ),
        (
            "a number out of range, and a byte of no token",
            "QUANTUM 65 ^?",
            "BadByte",
        ),
        (
            "no table, and a byte of no token",
            "INSERT INTO t VALUES (1^?)",
            "BadByte",
        ),
        ("two bytes of no token", "QUANTUM ^? !", "BadByte"),
        (
            "a number out of range, and a word too many",
            "QUANTUM 65 ^x",
            "Syntax",
        ),
        (
            "no table, and a word too many",
            "INSERT INTO t VALUES (1) ^x",
            "Syntax",
        ),
        (
            "a session out of order, and a number too many",
            "SESSION 2 ^1",
            "Syntax",
        ),
        ("no session, and a comma", "SCHEDULE 1^, 2", "Syntax"),
        (
            "no table, and no block",
            "LOAD DATA ^t BYTES 9",
            "UnknownTable",
        ),
        (
            "two numbers of a schedule",
            "SESSION 1; SCHEDULE 1 ^2 0",
            "UnknownSession",
        ),
        (
            "a byte of no token behind the schedule",
            "SESSION 1; SCHEDULE 1; ^?",
            "AfterSchedule",
        ),
        (
            "an open text behind the schedule",
            "SESSION 1; SCHEDULE 1; x ^'",
            "OpenText",
        ),
    ];
    for (name, text, kind) in rows {
        is_faulty(&rt, name, text, kind)?;
    }
    Ok(())
}

/// Two faulty pieces: the fault of the earlier one is told, whatever the later one has.
fn tells_the_earlier<R: Abort + Alloc<A = Global>>(
    rt: &R,
    earlier: (&str, &str),
    later: (&str, &str),
) -> Result<(), Fail> {
    let alloc = rt.alloc();
    let (behind, _) = marked(alloc, later.0)?;
    let text = format!(in alloc; "CREATE TABLE t (a INT); {};{}", earlier.0, behind.as_str())?;
    is_faulty(rt, "two faulty pieces", text.as_str(), earlier.1)
}

#[test]
fn tells_the_fault_of_the_earlier_piece(rt: HostRuntime) -> Result<(), Fail> {
    let pieces = [
        (" ^'x", "OpenText"),
        (" TURNS ^/* x", "OpenComment"),
        (" QUANTUM ^?", "BadByte"),
        (
            " TURNS ^100000000000000000000000000000000000000",
            "NumberTooLong",
        ),
        (" INSERT ^t", "Syntax"),
        (" ^DELETE", "NotSupported"),
        (" QUANTUM ^65", "BadNumber"),
        (" SESSION ^2", "SessionOrder"),
        (" SCHEDULE ^1", "UnknownSession"),
        (" LOAD DATA t BYTES 1;^ ", "BlockMissing"),
        (" LOAD DATA ^u BYTES 1", "UnknownTable"),
        (" INSERT INTO t (^b) VALUES (1)", "UnknownColumn"),
        (" CREATE TABLE ^t (a INT)", "DuplicateName"),
        (
            " CREATE TABLE ^u (a INT PRIMARY KEY, b INT PRIMARY KEY)",
            "SecondPrimary",
        ),
    ];
    for earlier in pieces {
        for later in pieces {
            if earlier.1 != later.1 {
                tells_the_earlier(&rt, earlier, later)?;
            }
        }
    }
    Ok(())
}

/// The limits of a session's statements come directly behind the search for a piece's end.
#[test]
fn tells_the_limits_of_statements_first(rt: HostRuntime) -> Result<(), Fail> {
    let alloc = rt.alloc();
    let open = repeated(alloc, "SESSION 1;", "a;", 256, " x ^'y")?;
    is_faulty(&rt, "an open text is the 257th", open.as_str(), "OpenText")?;
    let many = repeated(alloc, "SESSION 1;", "a;", 256, " ^x ?;")?;
    is_faulty(
        &rt,
        "a byte of no token is the 257th",
        many.as_str(),
        "TooManyStatements",
    )?;
    let word = repeated(alloc, "SESSION 1;", "a;", 256, " SESSION ^3")?;
    is_faulty(
        &rt,
        "a session is no statement",
        word.as_str(),
        "SessionOrder",
    )?;
    let empty = repeated(alloc, "SESSION 1;", "a;", 256, " # x\n; SCHEDULE ^2")?;
    is_faulty(
        &rt,
        "a comment is no statement",
        empty.as_str(),
        "UnknownSession",
    )
}

/// Nothing is read of a statement, so a script whose statements are all faulty is a script.
#[test]
fn reads_no_statement(rt: HostRuntime) -> Result<(), Fail> {
    let wanted = "quantum 64, turns 1000000, session 1 <?> <DROP> <SELECT>";
    runs(
        &rt,
        "faulty statements",
        "SESSION 1; ?; DROP; SELECT",
        wanted,
    )
}
