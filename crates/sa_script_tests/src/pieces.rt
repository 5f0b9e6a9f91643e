//! Where a script is cut into pieces, and what the pieces say.

use crate::lines::{has_rows, is_faulty, runs};
use std::alloc::Global;
use std::process::Abort;
use std::test::Fail;

#[test]
fn skips_empty_pieces(rt: HostRuntime) -> Result<(), Fail> {
    let plain = "quantum 64, turns 1000000";
    let rows = [
        ("nothing", "", plain),
        ("blanks of each kind", " \t\n\x0b\x0c\r", plain),
        ("semicolons alone", ";;;", plain),
        ("comments alone", "# x\n; -- y\n; /* z; */ ; --", plain),
        (
            "empty pieces of a session, and behind its schedule",
            "SESSION 1;; # x;\n; /**/; SELECT 1; ; SCHEDULE 1;; /* x */",
            "quantum 64, turns 1000000, session 1 <SELECT 1>, schedule 1",
        ),
    ];
    for (name, text, wanted) in rows {
        runs(&rt, name, text, wanted)?;
    }
    Ok(())
}

#[test]
fn reads_directives(rt: HostRuntime) -> Result<(), Fail> {
    let rows = [
        (
            "the least numbers",
            "QUANTUM 1; TURNS 1",
            "quantum 1, turns 1",
        ),
        (
            "the greatest numbers, in small letters",
            "turns 1000000000; quantum 64;",
            "quantum 64, turns 1000000000",
        ),
        (
            "the last of several counts",
            "QUANTUM 3; TURNS 4; QUANTUM 5; TURNS 6; QUANTUM 7",
            "quantum 7, turns 6",
        ),
        (
            "sessions in their order, one without statements",
            "SESSION 1; a; session 2; SESSION 3; b; c",
            "quantum 64, turns 1000000, session 1 <a>, session 2, session 3 <b> <c>",
        ),
        (
            "a schedule in another order than the sessions",
            "SESSION 1; SESSION 2; schedule 2 1\n2  2;",
            "quantum 64, turns 1000000, session 1, session 2, schedule 2 1 2 2",
        ),
    ];
    for (name, text, wanted) in rows {
        runs(&rt, name, text, wanted)?;
    }
    Ok(())
}

/// A statement's text reaches from its first to its last byte that is no white space. It is not read.
#[test]
fn keeps_statements_as_they_are_written(rt: HostRuntime) -> Result<(), Fail> {
    let rows = [
        (
            "blanks around a statement",
            "SESSION 1;\n\t SELECT  a\nFROM t \r\n; b\n",
            "<SELECT  a\nFROM t> <b>",
        ),
        (
            "comments around a statement",
            "SESSION 1; /* x */ a # y\n; b",
            "</* x */ a # y> <b>",
        ),
        (
            "semicolons in a text, a quoted name and comments",
            "SESSION 1; 'a;b' `c;d` \"e;f\" /* ; */ -- ;\n# ;\n g",
            "<'a;b' `c;d` \"e;f\" /* ; */ -- ;\n# ;\n g>",
        ),
        ("what no token is", "SESSION 1; ? $ 12x", "<? $ 12x>"),
        (
            "SESSION in backquotes",
            "SESSION 1; `SESSION` 2",
            "<`SESSION` 2>",
        ),
        (
            "SCHEDULE as the second word",
            "SESSION 1; a SCHEDULE",
            "<a SCHEDULE>",
        ),
        (
            "the words of the set-up",
            "SESSION 1; QUANTUM 65; TURNS; LOAD DATA t; CREATE TABLE; INSERT",
            "<QUANTUM 65> <TURNS> <LOAD DATA t> <CREATE TABLE> <INSERT>",
        ),
    ];
    for (name, text, statements) in rows {
        let wanted = format!(in rt.alloc(); "quantum 64, turns 1000000, session 1 {statements}")?;
        runs(&rt, name, text, wanted.as_str())?;
    }
    Ok(())
}

#[test]
fn knows_the_words_that_begin_a_piece(rt: HostRuntime) -> Result<(), Fail> {
    let rows = [
        ("SESSION in backquotes", "QUANTUM 4; ^`SESSION` 1", "Syntax"),
        (
            "SCHEDULE in backquotes",
            "QUANTUM 4; ^`SCHEDULE` 1",
            "Syntax",
        ),
        ("QUANTUM in backquotes", "TURNS 4; ^`QUANTUM` 1", "Syntax"),
        (
            "SESSION behind a comment",
            "/* x */ SESSION ^2",
            "SessionOrder",
        ),
        (
            "a schedule right behind the set-up",
            "QUANTUM 4; SCHEDULE ^1",
            "UnknownSession",
        ),
    ];
    for (name, text, kind) in rows {
        is_faulty(&rt, name, text, kind)?;
    }
    Ok(())
}

#[test]
fn cuts_set_up_at_semicolons_alone(rt: HostRuntime) -> Result<(), Fail> {
    let text = "CREATE TABLE `t;u` (a VARCHAR(9), `;` INT) # ;\n;
        INSERT /* ; */ INTO `t;u` VALUES ('x;y', 1), (\"'\", 2), ('it''s;', 3), ('\\';', 4) -- ;\n; QUANTUM 4";
    has_rows(&rt, "set-up", text, "'x;y' 1 | ''' 2 | 'it's;' 3 | '';' 4")
}
