//! Where a piece of a script ends.

use crate::lines::is_ended;
use sa_lexer::{PieceEnd, piece_end};
use std::test::Fail;

#[test]
fn ends_a_piece_at_its_semicolon(rt: HostRuntime) -> Result<(), Fail> {
    let rows = [
        ("nothing before it", "^;"),
        ("a word", "a^; b"),
        ("one in a text", "';'^; a"),
        ("one in double quotes", "\";\"^; a"),
        ("one in backquotes", "`;`^; a"),
        ("one behind a hash", "# ;\n^; a"),
        ("one behind two minuses", "-- ;\n^; a"),
        ("two minuses that open nothing", "--^;"),
        ("one in a comment", "/* ; */^; a"),
        ("one in a comment that would be run", "/*! ; */^; a"),
        ("one in a comment for MariaDB", "/*M! ; */^; a"),
        ("an escaped quote", r"'\';'^; a"),
        ("a doubled quote", "';''; '^;"),
        ("no escape in backquotes", r"`\`^;"),
        ("a character past ASCII", "é^;"),
        ("what has no tokens", "1a \0 ``^;"),
    ];
    for (name, text) in rows {
        is_ended(&rt, name, text, "semicolon")?;
    }
    Ok(())
}

#[test]
fn ends_the_last_piece_at_the_texts_end(rt: HostRuntime) -> Result<(), Fail> {
    let rows = [
        ("nothing", "^"),
        ("a word", "a^"),
        ("a semicolon behind a hash", "# ;^"),
        ("a semicolon behind two minuses", "-- ;^"),
        ("a semicolon in a comment", "/* ; */^"),
    ];
    for (name, text) in rows {
        is_ended(&rt, name, text, "end")?;
    }
    Ok(())
}

#[test]
fn names_what_a_piece_leaves_open(rt: HostRuntime) -> Result<(), Fail> {
    let rows = [
        ("a text", "^';", "OpenText"),
        ("a text in double quotes", "a ^\";", "OpenText"),
        ("a name behind a comment", "-- '\n ^`;", "OpenText"),
        ("an escaped quote", r"^'\'; ", "OpenText"),
        ("a comment", "^/* ;", "OpenComment"),
        ("a comment that would be run", "é^/*! ;", "OpenComment"),
    ];
    for (name, text, kind) in rows {
        is_ended(&rt, name, text, kind)?;
    }
    Ok(())
}

#[test]
fn goes_from_piece_to_piece(rt: HostRuntime) -> Result<(), Fail> {
    let script = "a;é ';' ;";
    let rows = [
        ("the first piece", 0, 1, true),
        ("from a semicolon on", 1, 1, true),
        ("the second piece", 2, 9, true),
        ("the last piece", 10, 10, false),
    ];
    for (name, from, end, closed) in rows {
        assert!(&rt; script.is_char_boundary(from), "{name}: {script:?}");
        assert_eq!(&rt;
            piece_end(script, from)?,
            PieceEnd { end, closed },
            "{name}: {script:?}"
        );
    }
    Ok(())
}
