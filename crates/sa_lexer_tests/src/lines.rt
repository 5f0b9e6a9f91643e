//! What the calls answer, as lines that a table can hold.

use sa_lexer::{LexFault, LexKind, PieceEnd, Token, TokenKind, piece_end, tokens};
use std::alloc::Global;
use std::process::Abort;
use std::test::Fail;

/// A token in a line: the bytes that it spans, what it is, and what it holds.
fn token_line(alloc: Global, token: &Token) -> Result<String, Fail> {
    let (start, end) = (token.start, token.end);
    Ok(match &token.kind {
        TokenKind::Word(word) => format!(in alloc; "{start}-{end} word {}", word.as_str())?,
        TokenKind::QuotedName(name) => format!(in alloc; "{start}-{end} name {}", name.as_str())?,
        TokenKind::Text(text) => format!(in alloc; "{start}-{end} text {}", text.as_str())?,
        TokenKind::Number(number) => format!(in alloc; "{start}-{end} number {number}")?,
        TokenKind::Sign(sign) => format!(in alloc; "{start}-{end} sign {}", sign.spelling())?,
    })
}

/// A fault in a line: its kind and its place.
fn fault_line(alloc: Global, fault: LexFault) -> Result<String, Fail> {
    let (kind, place) = match fault {
        LexFault::Bad { kind, place } => (kind, place),
        LexFault::OutOfMemory => return Err(Fail::new("memory ran out")),
    };
    let kind = match kind {
        LexKind::BadByte => "BadByte",
        LexKind::OpenText => "OpenText",
        LexKind::OpenComment => "OpenComment",
        LexKind::NumberTooLong => "NumberTooLong",
        LexKind::TextTooLong => "TextTooLong",
    };
    Ok(format!(in alloc; "{kind} at {place}")?)
}

/// The tokens in a line, with bars between them.
fn all_in_line(alloc: Global, tokens: &[Token]) -> Result<String, Fail> {
    let mut line = String::new(alloc);
    for token in tokens {
        if !line.is_empty() {
            line.push_str(" | ")?;
        }
        line.push_str(token_line(alloc, token)?.as_str())?;
    }
    Ok(line)
}

/// The tokens of a text, or its fault.
pub(crate) fn tokens_line(alloc: Global, text: &str) -> Result<String, Fail> {
    match tokens(alloc, text) {
        Ok(found) => all_in_line(alloc, found.as_slice()),
        Err(fault) => fault_line(alloc, fault),
    }
}

/// The end of the first piece of a text, or its fault.
fn piece_line(alloc: Global, text: &str) -> Result<String, Fail> {
    if !text.is_char_boundary(0) {
        return Err(Fail::new("a text that begins within a character"));
    }
    match piece_end(text, 0) {
        Ok(PieceEnd { end, closed }) if closed => Ok(format!(in alloc; "semicolon at {end}")?),
        Ok(PieceEnd { end, .. }) => Ok(format!(in alloc; "end at {end}")?),
        Err(fault) => fault_line(alloc, fault),
    }
}

/// The text without its mark `^`, and where that stands.
fn marked(alloc: Global, text: &str) -> Result<(String, usize), Fail> {
    let Some((before, behind)) = text.split_once('^') else {
        return Err(Fail::new("no mark"));
    };
    Ok((format!(in alloc; "{before}{behind}")?, before.len()))
}

/// The text has these tokens.
pub(crate) fn is_read<R: Abort + Alloc<A = Global>>(
    rt: &R,
    name: &str,
    text: &str,
    wanted: &str,
) -> Result<(), Fail> {
    let found = tokens_line(rt.alloc(), text)?;
    assert_eq!(rt; found.as_str(), wanted, "{name}: {text:?}");
    Ok(())
}

/// The fault of this kind stands at the mark.
pub(crate) fn is_faulty<R: Abort + Alloc<A = Global>>(
    rt: &R,
    name: &str,
    text: &str,
    kind: &str,
) -> Result<(), Fail> {
    let (text, place) = marked(rt.alloc(), text)?;
    let wanted = format!(in rt.alloc(); "{kind} at {place}")?;
    is_read(rt, name, text.as_str(), wanted.as_str())
}

/// The first piece ends so at the mark.
pub(crate) fn is_ended<R: Abort + Alloc<A = Global>>(
    rt: &R,
    name: &str,
    text: &str,
    end: &str,
) -> Result<(), Fail> {
    let (text, place) = marked(rt.alloc(), text)?;
    let wanted = format!(in rt.alloc(); "{end} at {place}")?;
    let found = piece_line(rt.alloc(), text.as_str())?;
    assert_eq!(rt; found.as_str(), wanted.as_str(), "{name}: {text:?}");
    Ok(())
}
