//! What stands first in a text, without reading the rest of it.

ghost use Rattle.std.specs.Prelude.{◌≡◌};
ghost use Rattle.sa_lexer.specs.declared.first.FirstToken.{FirstToken as Told};
ghost use Rattle.sa_lexer.specs.First.{IsFirst, MayBeCut};
ghost use Rattle.sa_lexer.specs.inner.Front.{BeginsBlank, BeginsWord};

use crate::byte::{is_space, is_word_byte};
use crate::lexeme::run_of_word_bytes;
use crate::opening::{Opening, is_executable, len_at, opening_of};

/// What stands first in a text, behind white space and comments.
#[derive(Clone, Copy, Debug, PartialEq, Eq)]
pub enum FirstToken {
    /// White space and comments alone.
    Nothing,
    /// A word that stands in no quotes, from `start` up to `end`.
    Word { start: usize, end: usize },
    /// Anything else, at `start`: another token, or a byte that begins none.
    Other { start: usize },
}

/// What stands first in a text. It takes no memory.
///
/// A comment without its end is no comment, so it is told as something else, at its opening.
pub fn first_token(text: &str) -> FirstToken
    ensures first { IsFirst text.now result }
    // Nothing else could be told.
    ensures only { (other : Told) → IsFirst text.now other → other ≡ result }
    ensures cut { MayBeCut text.now result }
{
    let mut start = 0;
    while let Some(len) = blank_len(&text[start..]) {
        start += len;
    }
    if start == text.len() {
        return FirstToken::Nothing;
    }
    match word_len(&text[start..]) {
        Some(len) => FirstToken::Word {
            start,
            end: start + len,
        },
        None => FirstToken::Other { start },
    }
}

/// How many bytes the blank takes that the text begins with, if it begins with one.
fn blank_len(rest: &str) -> Option<usize>
    ensures { BeginsBlank rest.now result }
{
    let bytes = rest.as_bytes();
    if bytes.is_empty() {
        return None;
    }
    if is_executable(bytes) {
        return None;
    }
    match opening_of(bytes) {
        Opening::LineComment | Opening::Comment => match len_at(bytes, 0) {
            Ok(len) => Some(len),
            Err(_) => None,
        },
        Opening::Quoted => None,
        Opening::Plain if is_space(bytes[0]) => Some(1),
        Opening::Plain => None,
    }
}

/// How many bytes the word takes that the text begins with, if it begins with one.
fn word_len(rest: &str) -> Option<usize>
    ensures { BeginsWord rest.now result }
{
    match rest.as_bytes() {
        [first, ..] if is_word_byte(*first) && !first.is_ascii_digit() => {
            Some(run_of_word_bytes(rest))
        }
        _ => None,
    }
}
