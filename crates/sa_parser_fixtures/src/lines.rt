//! What the calls answer, as lines that a table can hold.

use sa_ast::Statement;
use sa_lexer::tokens;
use sa_parser::{ParseFault, parse};
use sa_print::statement_text;
use sa_value::OutOfMemory;
use std::alloc::Global;
use std::test::Fail;

/// A fault in a line: its kind and its place.
pub fn fault_line(alloc: Global, fault: ParseFault) -> Result<String, Fail> {
    Ok(match fault {
        ParseFault::Syntax { place } => format!(in alloc; "Syntax at {place}")?,
        ParseFault::NotSupported { place } => format!(in alloc; "NotSupported at {place}")?,
        ParseFault::TooDeep { place } => format!(in alloc; "TooDeep at {place}")?,
        ParseFault::OutOfMemory => return Err(Fail::new("memory ran out")),
    })
}

/// The canonical text of a session's statement.
fn canonical_line(alloc: Global, tree: &Statement) -> Result<String, Fail> {
    match tree {
        Statement::Create(_) | Statement::Insert(_) => Err(Fail::new("a statement of the set-up")),
        _ => Ok(statement_text(alloc, tree)?.into_string()),
    }
}

/// What a session's statement is read as: its canonical text, or its fault.
pub fn session_line(alloc: Global, text: &str) -> Result<String, Fail> {
    match parse(alloc, &tokens(alloc, text)?) {
        Ok(tree) => canonical_line(alloc, &tree),
        Err(fault) => fault_line(alloc, fault),
    }
}

/// The text without its mark `^`, and where that stands.
pub fn marked(alloc: Global, text: &str) -> Result<(String, usize), Fail> {
    let Some((before, behind)) = text.split_once('^') else {
        return Err(Fail::new("no mark"));
    };
    Ok((format!(in alloc; "{before}{behind}")?, before.len()))
}

/// A text that is `again` so many times, between `first` and `last`.
pub fn repeated(
    alloc: Global,
    first: &str,
    again: &str,
    times: usize,
    last: &str,
) -> Result<String, OutOfMemory> {
    let mut text = String::from_str(alloc, first)?;
    for _ in 0..times {
        text.push_str(again)?;
    }
    text.push_str(last)?;
    Ok(text)
}
