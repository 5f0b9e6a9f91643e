ghost use Rattle.std.specs.Prelude.{◌≡◌, ◌<◌, ◌≤◌, length, drop, IfOk, IfErr, IfSome, IfNone};
ghost use Rattle.sa_lexer.specs.Fault.{Answers, IsOpen};
ghost use Rattle.sa_lexer.specs.Opening.{opening_of, is_executable, line_len, comment_close, quote_close, plus, len_at};

use crate::byte::is_space;
use crate::fault::{LexFault, LexKind};

/// What a text begins with, as far as it decides where to read on.
#[derive(Clone, Copy, Debug, PartialEq, Eq)]
pub(crate) enum Opening {
    /// A comment up to the end of its line.
    LineComment,
    /// A comment up to its `*/`.
    Comment,
    /// A text, or a name in backquotes.
    Quoted,
    /// Anything else.
    Plain,
}

/// What the bytes begin with.
///
/// Source: MariaDB Knowledge Base, "Comment Syntax" and "String Literals".
#[tactic(auto, unfolding(crate::specs::Opening::opening_of))]
pub(crate) fn opening_of(bytes: &[u8]) -> Opening
    ensures { result ≡ opening_of bytes.now }
{
    match bytes {
        [b'#', ..] => Opening::LineComment,
        [b'-', b'-'] => Opening::LineComment,
        [b'-', b'-', after, ..] if is_space(*after) => Opening::LineComment,
        [b'/', b'*', ..] => Opening::Comment,
        [b'\'' | b'"' | b'`', ..] => Opening::Quoted,
        _ => Opening::Plain,
    }
}

/// Whether the bytes begin a comment that MariaDB would run.
#[tactic(auto, unfolding(crate::specs::Opening::is_executable))]
pub(crate) fn is_executable(bytes: &[u8]) -> bool
    ensures { result ≡ is_executable bytes.now }
{
    matches!(bytes, [b'/', b'*', b'!', ..] | [b'/', b'*', b'M', b'!', ..])
}

/// How many bytes the comment or the part in quotes takes that a text from `place` on begins with.
/// Of anything else it is the first byte alone.
#[tactic(auto, unfolding(crate::specs::Opening::len_at))]
pub(crate) fn len_at(bytes: &[u8], place: usize) -> Result<usize, LexFault>
    requires { 0 < length bytes.now }
    ensures exact { Answers result (len_at place bytes.now) }
    ensures some { IfOk result (λ len. 0 < len) }
    ensures within { IfOk result (λ len. len ≤ length bytes.now) }
    ensures open_alone { IfErr result IsOpen }
{
    match opening_of(bytes) {
        Opening::LineComment => Ok(line_len(bytes)),
        Opening::Comment => match comment_close(&bytes[2..]) {
            Some(len) => Ok(2 + len),
            None => Err(LexFault::Bad {
                kind: LexKind::OpenComment,
                place,
            }),
        },
        Opening::Quoted => match quote_close(bytes[0], &bytes[1..]) {
            Some(len) => Ok(1 + len),
            None => Err(LexFault::Bad {
                kind: LexKind::OpenText,
                place,
            }),
        },
        Opening::Plain => Ok(1),
    }
}

/// How many bytes come before the end of the line.
fn line_len(bytes: &[u8]) -> usize
    ensures { result ≡ line_len bytes.now }
{
    bytes.iter().take_while(|byte| **byte != b'\n').count()
}

/// How many bytes there are up to the first `*/`, and with it.
fn comment_close(bytes: &[u8]) -> Option<usize>
    ensures exact { result ≡ comment_close bytes.now }
    ensures within { IfSome result (λ len. len ≤ length bytes.now) }
{
    for place in 0..bytes.len() {
        if bytes[place..].starts_with(b"*/") {
            return Some(place + 2);
        }
    }
    None
}

/// How many bytes there are up to the closing quote, and with it.
fn quote_close(quote: u8, bytes: &[u8]) -> Option<usize>
    ensures exact { result ≡ quote_close quote bytes.now }
    ensures some { IfSome result (λ len. 0 < len) }
    ensures within { IfSome result (λ len. len ≤ length bytes.now) }
{
    let mut place = 0;
    while place < bytes.len() {
        match unit_len(quote, &bytes[place..]) {
            Some(len) => place += len,
            None => return Some(place + 1),
        }
    }
    None
}

/// How many bytes stand for one between the quotes, where no closing quote comes next.
#[tactic(auto, unfolding(crate::specs::Opening::quote_close))]
fn unit_len(quote: u8, bytes: &[u8]) -> Option<usize>
    requires { 0 < length bytes.now }
    ensures close { IfNone result (quote_close quote bytes.now ≡ Some 1) }
    ensures on { IfSome result
        (λ len. quote_close quote bytes.now ≡ plus len (quote_close quote (drop len bytes.now))) }
    ensures some { IfSome result (λ len. 0 < len) }
    ensures within { IfSome result (λ len. len ≤ length bytes.now) }
{
    match bytes {
        [first, second, ..] if *first == quote && *second == quote => Some(2),
        [first, ..] if *first == quote => None,
        [b'\\', _, ..] if quote != b'`' => Some(2),
        _ => Some(1),
    }
}
