//! What stands first in a text.

use sa_lexer::{FirstToken, first_token};
use std::alloc::{AllocError, Global};
use std::process::Abort;
use std::test::Fail;

/// What stands first, in a line.
fn first_line(alloc: Global, text: &str) -> Result<String, AllocError> {
    match first_token(text) {
        FirstToken::Nothing => String::from_str(alloc, "nothing"),
        FirstToken::Word { start, end } => format!(in alloc; "word {start}-{end}"),
        FirstToken::Other { start } => format!(in alloc; "other at {start}"),
    }
}

/// This stands first in the text.
fn is_first<R: Abort + Alloc<A = Global>>(
    rt: &R,
    name: &str,
    text: &str,
    wanted: &str,
) -> Result<(), Fail> {
    let found = first_line(rt.alloc(), text)?;
    assert_eq!(rt; found.as_str(), wanted, "{name}: {text:?}");
    Ok(())
}

#[test]
fn tells_words_behind_blanks(rt: HostRuntime) -> Result<(), Fail> {
    let rows = [
        ("a word alone", "SESSION", "word 0-7"),
        ("a word and a number", "session 1", "word 0-7"),
        ("behind white space", " \n\tSCHEDULE 1 2", "word 3-11"),
        ("behind comments", "# a\n/* b */-- c\nKILL 1", "word 16-20"),
        ("before a comment", "KILL/* b */1", "word 0-4"),
        ("before a quote", "LOAD'x'", "word 0-4"),
        ("past ASCII", " größe=", "word 1-8"),
    ];
    for (name, text, wanted) in rows {
        is_first(&rt, name, text, wanted)?;
    }
    Ok(())
}

#[test]
fn tells_that_nothing_stands_there(rt: HostRuntime) -> Result<(), Fail> {
    let rows = [
        ("no byte", "", "nothing"),
        ("white space", " \r\n ", "nothing"),
        ("comments", "/**/ # a\n-- b", "nothing"),
    ];
    for (name, text, wanted) in rows {
        is_first(&rt, name, text, wanted)?;
    }
    Ok(())
}

#[test]
fn tells_what_is_no_word(rt: HostRuntime) -> Result<(), Fail> {
    let rows = [
        ("a name in backquotes", " `session` 1", "other at 1"),
        ("a text", "'session'", "other at 0"),
        ("a number", "\n12", "other at 1"),
        ("a number before a letter", "1a", "other at 0"),
        ("a sign", "/* a */(", "other at 7"),
        ("a byte that begins nothing", " ;", "other at 1"),
        ("a comment that would be run", " /*! a */ b", "other at 1"),
        ("a comment without its end", "# a\n/* b", "other at 4"),
        ("a text without its end", "'a", "other at 0"),
        ("two minuses that open nothing", "--a", "other at 0"),
    ];
    for (name, text, wanted) in rows {
        is_first(&rt, name, text, wanted)?;
    }
    Ok(())
}
