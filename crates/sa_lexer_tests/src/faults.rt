//! The leftmost fault of a text, at its place.

use crate::lines::is_faulty;
use std::test::Fail;

#[test]
fn names_bad_bytes(rt: HostRuntime) -> Result<(), Fail> {
    let rows = [
        ("a letter behind a number", "1^a"),
        ("a low line behind a number", "1^_"),
        ("a dollar sign behind a number", "1^$"),
        ("a character past ASCII behind a number", "1^é"),
        ("the same behind one", "é 12^é"),
        (
            "a letter behind 38 digits",
            "00000000000000000000000000000000000001^a",
        ),
        ("a bang", "^!"),
        ("a bang between words", "a ^! b"),
        ("one ampersand", "^&"),
        ("one bar", "^|"),
        ("a semicolon", "a^;"),
        ("a byte 0", "^\0"),
        ("a byte 0 between words", "a^\0b"),
        ("the last control character", "^\u{7f}"),
    ];
    for (name, text) in rows {
        is_faulty(&rt, name, text, "BadByte")?;
    }
    Ok(())
}

#[test]
fn names_what_begins_no_token(rt: HostRuntime) -> Result<(), Fail> {
    let rows = [
        ("an empty name", "a ^``"),
        ("an empty name before another one", "^``a`"),
        ("a comment that would be run", "^/*!50000 x */"),
        ("one without an end", "a ^/*!"),
        ("one for MariaDB", "^/*M!100 x */"),
        ("a semicolon behind a comment", "/**!*/ ^;"),
    ];
    for (name, text) in rows {
        is_faulty(&rt, name, text, "BadByte")?;
    }
    Ok(())
}

#[test]
fn names_numbers_that_are_too_long(rt: HostRuntime) -> Result<(), Fail> {
    let rows = [
        ("39 digits", "  ^999999999999999999999999999999999999999"),
        (
            "with a letter behind",
            "^000000000000000000000000000000000000001a",
        ),
    ];
    for (name, text) in rows {
        is_faulty(&rt, name, text, "NumberTooLong")?;
    }
    Ok(())
}

#[test]
fn names_what_has_no_end(rt: HostRuntime) -> Result<(), Fail> {
    let rows = [
        ("a text", "^'a", "OpenText"),
        (
            "a text behind a character of two bytes",
            "é ^'a",
            "OpenText",
        ),
        ("an escaped quote", "^'a\\'", "OpenText"),
        ("a backslash at the end", "^'a\\", "OpenText"),
        ("a quote alone", "^'", "OpenText"),
        ("a doubled quote", "^'''", "OpenText"),
        ("the other quote", "^\"a'", "OpenText"),
        ("a doubled double quote", "a ^\"\"\"", "OpenText"),
        ("a backquote alone", "^`", "OpenText"),
        ("a doubled backquote", "^```", "OpenText"),
        ("a name", "^`a", "OpenText"),
        ("a comment's opening alone", "^/*", "OpenComment"),
        ("a slash behind it", "^/*/", "OpenComment"),
        ("a star and a slash apart", "a ^/* * /", "OpenComment"),
        ("a semicolon in it", "^/* a ;", "OpenComment"),
    ];
    for (name, text, kind) in rows {
        is_faulty(&rt, name, text, kind)?;
    }
    Ok(())
}

#[test]
fn names_the_leftmost_fault(rt: HostRuntime) -> Result<(), Fail> {
    let rows = [
        ("a bad byte before a text", "^! '", "BadByte"),
        ("a text before a bad byte", "^' !", "OpenText"),
        (
            "a long number before a bad byte",
            "^999999999999999999999999999999999999999 !",
            "NumberTooLong",
        ),
    ];
    for (name, text, kind) in rows {
        is_faulty(&rt, name, text, kind)?;
    }
    Ok(())
}
