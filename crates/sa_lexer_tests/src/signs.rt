//! Signs, the longest first.

use crate::lines::is_read;
use std::test::Fail;

#[test]
fn reads_signs_of_several_bytes(rt: HostRuntime) -> Result<(), Fail> {
    let rows = [
        ("equal or both NULL", "<=>", "0-3 sign <=>"),
        ("unequal", "<>", "0-2 sign <>"),
        ("unequal with a bang", "!=", "0-2 sign !="),
        ("less or equal", "<=", "0-2 sign <="),
        ("greater or equal", ">=", "0-2 sign >="),
        ("and", "&&", "0-2 sign &&"),
        ("or", "||", "0-2 sign ||"),
    ];
    for (name, text, wanted) in rows {
        is_read(&rt, name, text, wanted)?;
    }
    Ok(())
}

#[test]
fn reads_signs_of_one_byte(rt: HostRuntime) -> Result<(), Fail> {
    let rows = [
        ("an opening bracket", "(", "0-1 sign ("),
        ("a closing bracket", ")", "0-1 sign )"),
        ("a comma", ",", "0-1 sign ,"),
        ("a dot", ".", "0-1 sign ."),
        ("a star", "*", "0-1 sign *"),
        ("a plus", "+", "0-1 sign +"),
        ("a minus", "-", "0-1 sign -"),
        ("a slash", "/", "0-1 sign /"),
        ("a percent sign", "%", "0-1 sign %"),
        ("equal", "=", "0-1 sign ="),
        ("less", "<", "0-1 sign <"),
        ("greater", ">", "0-1 sign >"),
    ];
    for (name, text, wanted) in rows {
        is_read(&rt, name, text, wanted)?;
    }
    Ok(())
}

#[test]
fn reads_the_longest_sign(rt: HostRuntime) -> Result<(), Fail> {
    let rows = [
        ("a space between", "> =", "0-1 sign > | 2-3 sign ="),
        ("less or equal first", "<==", "0-2 sign <= | 2-3 sign ="),
        ("unequal first", "<>=", "0-2 sign <> | 2-3 sign ="),
        ("greater or equal first", ">=>", "0-2 sign >= | 2-3 sign >"),
        ("three bytes first", "<=>>", "0-3 sign <=> | 3-4 sign >"),
        ("a bang first", "!==", "0-2 sign != | 2-3 sign ="),
        ("or, then and", "||&&", "0-2 sign || | 2-4 sign &&"),
        ("two signs of sums", "-+", "0-1 sign - | 1-2 sign +"),
    ];
    for (name, text, wanted) in rows {
        is_read(&rt, name, text, wanted)?;
    }
    Ok(())
}

#[test]
fn reads_signs_that_open_no_comment(rt: HostRuntime) -> Result<(), Fail> {
    let rows = [
        (
            "two minuses before a letter",
            "--a",
            "0-1 sign - | 1-2 sign - | 2-3 word a",
        ),
        ("a slash at the end", "a /", "0-1 word a | 2-3 sign /"),
        (
            "two minuses before a letter, and a slash at the end",
            "--a /",
            "0-1 sign - | 1-2 sign - | 2-3 word a | 4-5 sign /",
        ),
        ("a minus before a comment", "--- a", "0-1 sign -"),
        ("a star before a comment", "*/**/", "0-1 sign *"),
        (
            "a slash and a star apart",
            "/ * */",
            "0-1 sign / | 2-3 sign * | 4-5 sign * | 5-6 sign /",
        ),
        (
            "the same behind two minuses and a number",
            "--1 / * */",
            "0-1 sign - | 1-2 sign - | 2-3 number 1 \
            | 4-5 sign / | 6-7 sign * | 8-9 sign * | 9-10 sign /",
        ),
    ];
    for (name, text, wanted) in rows {
        is_read(&rt, name, text, wanted)?;
    }
    Ok(())
}
