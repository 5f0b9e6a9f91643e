//! LOAD DATA: the block behind its `;`, and its faults.

use crate::lines::{bytes_fail, has_rows, is_faulty, is_faulty_row};
use std::alloc::Global;
use std::process::Abort;
use std::test::Fail;

#[test]
fn loads_blocks(rt: HostRuntime) -> Result<(), Fail> {
    let rows = [
        (
            "two lines",
            "CREATE TABLE t (a INT, b VARCHAR(5)); LOAD DATA t BYTES 9;\n1,x\n2,\\N\n",
            "1 'x' | 2 NULL",
        ),
        (
            "CR LF behind the semicolon, and no line end at the block's end",
            "CREATE TABLE t (a INT); LOAD DATA t BYTES 4;\r\n5\r\n6",
            "5 | 6",
        ),
        (
            "a piece right behind the block",
            "CREATE TABLE t (a INT); LOAD DATA t BYTES 2;\n7\nINSERT INTO t VALUES (8);",
            "7 | 8",
        ),
        (
            "no bytes",
            "CREATE TABLE t (a INT); LOAD DATA t BYTES 0;\nINSERT INTO t VALUES (8);",
            "8",
        ),
        (
            "semicolons and quotes",
            "CREATE TABLE t (a VARCHAR(9)); LOAD DATA t BYTES 15;\na;'b\n`/*\n\"c;\nd\"\n;",
            "'a;'b' | '`/*' | 'c;\nd'",
        ),
        (
            "two blocks",
            "CREATE TABLE t (a INT); LOAD DATA t BYTES 2;\n1\nLOAD DATA t BYTES 2;\n2\n",
            "1 | 2",
        ),
        (
            "characters of several bytes",
            "CREATE TABLE t (a VARCHAR(3)); LOAD DATA t BYTES 7;\näöü\nINSERT INTO t VALUES ('x')",
            "'äöü' | 'x'",
        ),
    ];
    for (name, text, wanted) in rows {
        has_rows(&rt, name, text, wanted)?;
    }
    Ok(())
}

#[test]
fn tells_blocks_that_are_missing(rt: HostRuntime) -> Result<(), Fail> {
    let rows = [
        (
            "no semicolon",
            "CREATE TABLE t (a INT); LOAD DATA t BYTES 0 ^",
            "BlockMissing",
        ),
        (
            "no line end",
            "CREATE TABLE t (a INT); LOAD DATA t BYTES 1;^1\n",
            "BlockMissing",
        ),
        (
            "CR alone",
            "CREATE TABLE t (a INT); LOAD DATA t BYTES 1;^\r1\n",
            "BlockMissing",
        ),
        (
            "nothing behind the semicolon",
            "CREATE TABLE t (a INT); LOAD DATA t BYTES 0;^",
            "BlockMissing",
        ),
        (
            "too few bytes",
            "CREATE TABLE t (a INT); LOAD DATA t BYTES 9;\n^1\n",
            "BlockMissing",
        ),
        (
            "a byte too few behind CR LF",
            "CREATE TABLE t (a INT); LOAD DATA t BYTES 3;\r\n^1\n",
            "BlockMissing",
        ),
        (
            "more bytes than there can be",
            "CREATE TABLE t (a INT); LOAD DATA t BYTES 99999999999999999999999999999999999999;\n^1\n",
            "BlockMissing",
        ),
        (
            "no table, before the block",
            "CREATE TABLE t (a INT); LOAD DATA ^u BYTES 9;\n1\n",
            "UnknownTable",
        ),
    ];
    for (name, text, kind) in rows {
        is_faulty(&rt, name, text, kind)?;
    }
    Ok(())
}

/// The fault of a record stands where its block begins, with the record's number.
#[test]
fn tells_faults_of_records(rt: HostRuntime) -> Result<(), Fail> {
    let rows = [
        (
            "no number",
            "CREATE TABLE t (a INT); LOAD DATA t BYTES 4;\n^1\nx\n",
            "NotNumber",
            2,
        ),
        (
            "two fields",
            "CREATE TABLE t (a INT); LOAD DATA t BYTES 6;\r\n^1\n2,3\n",
            "Arity",
            2,
        ),
        (
            "NULL",
            "CREATE TABLE t (a INT NOT NULL); LOAD DATA t BYTES 6;\n^1\n\n\\N\n",
            "NullNotAllowed",
            2,
        ),
        (
            "out of range",
            "CREATE TABLE t (a INT); LOAD DATA t BYTES 10;\n^2147483648",
            "OutOfRange",
            1,
        ),
        (
            "too long",
            "CREATE TABLE t (a VARCHAR(2)); LOAD DATA t BYTES 7;\n^ab\nabc\n",
            "TooLong",
            2,
        ),
        (
            "a key twice",
            "CREATE TABLE t (a INT PRIMARY KEY); LOAD DATA t BYTES 6;\n^1\n2\n1\n",
            "DuplicateKey",
            3,
        ),
        (
            "a row of an earlier statement",
            "CREATE TABLE t (a INT PRIMARY KEY); INSERT INTO t VALUES (1); LOAD DATA t BYTES 2;\n^1\n",
            "DuplicateKey",
            1,
        ),
    ];
    for (name, text, kind, row) in rows {
        is_faulty_row(&rt, name, text, kind, row)?;
    }
    Ok(())
}

#[test]
fn tells_blocks_that_end_inside_a_character(rt: HostRuntime) -> Result<(), Fail> {
    let rows = [
        (
            "in the first record",
            "CREATE TABLE t (a VARCHAR(9)); LOAD DATA t BYTES 1;\n^ä\n",
            "NotUtf8",
            1,
        ),
        (
            "in the second record",
            "CREATE TABLE t (a VARCHAR(9)); LOAD DATA t BYTES 5;\n^ä\nx€\n",
            "NotUtf8",
            2,
        ),
    ];
    for (name, text, kind, row) in rows {
        is_faulty_row(&rt, name, text, kind, row)?;
    }
    Ok(())
}

/// A byte of a block that is no UTF-8 is a fault of the whole script, before any piece.
#[test]
fn tells_bytes_of_blocks_that_are_no_text(rt: HostRuntime) -> Result<(), Fail> {
    bytes_fail(
        &rt,
        "in a block",
        b"QUANTUM 65; LOAD DATA t BYTES 2;\nx\xff",
        "NotUtf8 at 34",
    )
}
