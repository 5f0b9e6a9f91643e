//! Texts and names in quotes.

use crate::lines::is_read;
use std::test::Fail;

#[test]
fn undoes_escapes(rt: HostRuntime) -> Result<(), Fail> {
    let rows = [
        (
            "each escape that means something",
            r"'\0\b\t\n\r\Z'",
            "0-14 text \0\u{8}\t\n\r\u{1a}",
        ),
        ("those that keep the backslash", r"'\%\_'", r"0-6 text \%\_"),
        (
            "quotes and the backslash",
            r#"'\\\'\"\`'"#,
            "0-10 text \\'\"`",
        ),
        ("letters of the other case", r"'\a\N\z\B'", "0-10 text aNzB"),
        ("characters past ASCII", r"'\é\€\𝄞'", "0-14 text é€𝄞"),
        (
            "in double quotes",
            r#""\0\b\t\n\r\Z\%\_\\\'\"\x""#,
            "0-26 text \0\u{8}\t\n\r\u{1a}\\%\\_\\'\"x",
        ),
        ("before a doubled quote", r"'\''''", "0-6 text ''"),
    ];
    for (name, text, wanted) in rows {
        is_read(&rt, name, text, wanted)?;
    }
    Ok(())
}

#[test]
fn reads_texts(rt: HostRuntime) -> Result<(), Fail> {
    let rows = [
        ("nothing", "''", "0-2 text "),
        ("nothing in double quotes", "\"\"", "0-2 text "),
        ("a doubled quote", "''''", "0-4 text '"),
        ("a doubled double quote", "\"\"\"\"", "0-4 text \""),
        ("a doubled quote inside", "'a''b'", "0-6 text a'b"),
        (
            "a doubled double quote inside",
            "\"a\"\"b\"",
            "0-6 text a\"b",
        ),
        ("the other quotes", "'a\"\"b`'", "0-7 text a\"\"b`"),
        (
            "the other quotes in double ones",
            "\"a''b`\"",
            "0-7 text a''b`",
        ),
        ("a line's end", "'é€𝄞\n'", "0-12 text é€𝄞\n"),
        (
            "what opens a comment elsewhere",
            "'-- a # b /* c'",
            "0-15 text -- a # b /* c",
        ),
    ];
    for (name, text, wanted) in rows {
        is_read(&rt, name, text, wanted)?;
    }
    Ok(())
}

#[test]
fn reads_quoted_names(rt: HostRuntime) -> Result<(), Fail> {
    let rows = [
        ("a name", "`a`", "0-3 name a"),
        ("a reserved word", "`select`", "0-8 name select"),
        ("a doubled backquote", "````", "0-4 name `"),
        ("a doubled backquote inside", "`a``b`", "0-6 name a`b"),
        ("no escape", r"`a\n'b`", r"0-7 name a\n'b"),
        ("a backslash", r"`\`", r"0-3 name \"),
        ("a semicolon", "`é€𝄞 ;`", "0-13 name é€𝄞 ;"),
    ];
    for (name, text, wanted) in rows {
        is_read(&rt, name, text, wanted)?;
    }
    Ok(())
}
