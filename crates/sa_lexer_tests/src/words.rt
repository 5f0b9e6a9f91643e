//! Words and numbers.

use crate::lines::is_read;
use sa_lexer::{Tokens, is_reserved, tokens};
use std::test::Fail;

#[test]
fn reads_words(rt: HostRuntime) -> Result<(), Fail> {
    let rows = [
        (
            "a statement",
            "SELECT a FROM t",
            "0-6 word SELECT | 7-8 word a | 9-13 word FROM | 14-15 word t",
        ),
        (
            "a statement with a sign and a number",
            "SELECT a FROM t WHERE a >= 2",
            "0-6 word SELECT | 7-8 word a | 9-13 word FROM | 14-15 word t \
            | 16-21 word WHERE | 22-23 word a | 24-26 sign >= | 27-28 number 2",
        ),
        ("a digit and both signs", "a1_$", "0-4 word a1_$"),
        ("a low line first", "_1", "0-2 word _1"),
        (
            "characters of two to four bytes",
            "é€𝄞a é",
            "0-10 word é€𝄞a | 11-13 word é",
        ),
        (
            "a vertical tab between words",
            "a\u{b}b",
            "0-1 word a | 2-3 word b",
        ),
    ];
    for (name, text, wanted) in rows {
        is_read(&rt, name, text, wanted)?;
    }
    Ok(())
}

#[test]
fn reads_numbers(rt: HostRuntime) -> Result<(), Fail> {
    let rows = [
        ("zeros in front", "007", "0-3 number 7"),
        (
            "38 digits",
            "99999999999999999999999999999999999999",
            "0-38 number 99999999999999999999999999999999999999",
        ),
        (
            "a dot inside",
            "1.5",
            "0-1 number 1 | 1-2 sign . | 2-3 number 5",
        ),
        ("a dot in front", ".5", "0-1 sign . | 1-2 number 5"),
        ("a sign in front", "-2", "0-1 sign - | 1-2 number 2"),
    ];
    for (name, text, wanted) in rows {
        is_read(&rt, name, text, wanted)?;
    }
    Ok(())
}

#[test]
fn reads_nothing_where_nothing_is(rt: HostRuntime) -> Result<(), Fail> {
    let rows = [
        ("no byte", "", ""),
        ("a space", " ", ""),
        ("each white space", "\t\n\u{b}\u{c}\r ", ""),
    ];
    for (name, text, wanted) in rows {
        is_read(&rt, name, text, wanted)?;
    }
    Ok(())
}

#[test]
fn gives_tokens_as_a_vec_and_back(rt: HostRuntime) -> Result<(), Fail> {
    let found = tokens(rt.alloc(), "a,")?.into_vec();
    let again = Tokens::from_vec(found);
    assert_eq!(rt; again.as_slice().len(), 2, "a,");
    Ok(())
}

#[test]
fn knows_the_reserved_words(rt: HostRuntime) {
    let rows = [
        ("the first", "ALL", true),
        ("the last, in small letters", "xor", true),
        ("one in mixed case", "Straight_Join", true),
        ("a word that only begins as one", "ALLE", false),
        ("the name of an aggregate", "count", false),
        ("nothing", "", false),
    ];
    for (name, word, reserved) in rows {
        assert_eq!(rt; is_reserved(word), reserved, "{name}: {word:?}");
    }
}
