//! Comments are passed over.

use crate::lines::is_read;
use std::test::Fail;

#[test]
fn passes_comments_to_the_end_of_the_line(rt: HostRuntime) -> Result<(), Fail> {
    let rows = [
        ("no comment", "a b", "0-1 word a | 2-3 word b"),
        ("a hash", "a# c\nb", "0-1 word a | 5-6 word b"),
        ("a hash alone", "a#\nb", "0-1 word a | 3-4 word b"),
        (
            "two minuses and a space",
            "a -- c\nb",
            "0-1 word a | 7-8 word b",
        ),
        ("two minuses alone", "a --\nb", "0-1 word a | 5-6 word b"),
        (
            "two minuses and a tab",
            "a--\tc '\nb",
            "0-1 word a | 8-9 word b",
        ),
        (
            "two minuses and a vertical tab",
            "a b--\u{b}c",
            "0-1 word a | 2-3 word b",
        ),
        ("up to the text's end", "a b -- ", "0-1 word a | 2-3 word b"),
        (
            "a hash at the text's end",
            "a b#;",
            "0-1 word a | 2-3 word b",
        ),
        (
            "two minuses at the text's end",
            "a b--",
            "0-1 word a | 2-3 word b",
        ),
    ];
    for (name, text, wanted) in rows {
        is_read(&rt, name, text, wanted)?;
    }
    Ok(())
}

#[test]
fn passes_comments_between_marks(rt: HostRuntime) -> Result<(), Fail> {
    let rows = [
        ("a comment", "a/* c */b", "0-1 word a | 8-9 word b"),
        ("an empty one", "a/**/b", "0-1 word a | 5-6 word b"),
        (
            "over a line's end",
            "a/*\n' ; # */b",
            "0-1 word a | 12-13 word b",
        ),
        ("a star more", "a/***/b", "0-1 word a | 6-7 word b"),
        (
            "a star more, and a hash at the text's end",
            "a/***/b#",
            "0-1 word a | 6-7 word b",
        ),
        ("a slash first", "a/*/*/ b", "0-1 word a | 7-8 word b"),
        (
            "a slash first, and two minuses at the text's end",
            "a/*/*/ b--",
            "0-1 word a | 7-8 word b",
        ),
    ];
    for (name, text, wanted) in rows {
        is_read(&rt, name, text, wanted)?;
    }
    Ok(())
}
