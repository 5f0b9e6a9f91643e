ghost use Rattle.std.specs.Prelude.{◌≡◌, ◌+◌, ◌-◌, ◌<◌, ◌≤◌, ◌^◌, length, slice_index, IsTrue, IfOk};
ghost use Rattle.std.specs.Char.{is_ascii_digit};
ghost use Rattle.std.specs.List.{prefix_len};
ghost use Rattle.std.specs.Str.{IsCharBoundary, all_ascii_digits};
ghost use Rattle.std.specs.Str.Parse.{digits_value};
ghost use Rattle.sa_lexer.specs.Byte.{is_word_byte, is_quote};
ghost use Rattle.sa_lexer.specs.Fault.{Gives};
ghost use Rattle.sa_lexer.specs.Sign.{sign_at};
ghost use Rattle.sa_lexer.specs.Lexeme.{word_at, number_at, sign_lexeme, plain_at, quoted_at, lexeme_at};

use crate::byte::{is_space, is_word_byte};
use crate::fault::{LexFault, LexKind};
use crate::opening::{Opening, is_executable, len_at, opening_of};
use crate::quoted::unquoted;
use crate::sign::Sign;
use crate::token::TokenKind;
use sa_value::Text;
use std::alloc::Global;

/// What a text begins with: a token, or a blank, which has no kind. `len` is how many bytes it takes.
#[derive(Debug, Drop)]
pub(crate) struct Lexeme {
    pub(crate) kind: Option<TokenKind>,
    pub(crate) len: usize,
}

/// The most digits that a number may have.
const MOST_DIGITS: usize = 38;

/// The most bytes that a text may hold.
const MOST_BYTES: usize = 255;

/// The lexeme that the rest of a text, from `place` on, begins with.
#[tactic(auto, unfolding(crate::specs::Lexeme::lexeme_at))]
pub(crate) fn first_lexeme(alloc: Global, rest: &str, place: usize) -> Result<Lexeme, LexFault>
    requires some { 0 < length rest.now }
    requires within { place + length rest.now < 2 ^ 64 }
    ensures exact { Gives result (lexeme_at place rest.now) }
    ensures some { IfOk result (λ lexeme. 0 < lexeme.len) }
    ensures cut { IfOk result (λ lexeme. IsCharBoundary rest.now lexeme.len) }
{
    let bytes = rest.as_bytes();
    if is_executable(bytes) {
        return Err(LexFault::Bad {
            kind: LexKind::BadByte,
            place,
        });
    }
    let len = len_at(bytes, place)?;
    match opening_of(bytes) {
        Opening::LineComment | Opening::Comment => Ok(Lexeme { kind: None, len }),
        Opening::Quoted => quoted(alloc, &rest[..len], place),
        Opening::Plain => plain(alloc, rest, place),
    }
}

/// The lexeme at the front that is neither a comment nor in quotes.
#[tactic(auto, unfolding(crate::specs::Lexeme::plain_at))]
fn plain(alloc: Global, rest: &str, place: usize) -> Result<Lexeme, LexFault>
    requires some { 0 < length rest.now }
    requires within { place + length rest.now < 2 ^ 64 }
    ensures exact { Gives result (plain_at place rest.now) }
    ensures some { IfOk result (λ lexeme. 0 < lexeme.len) }
    ensures cut { IfOk result (λ lexeme. IsCharBoundary rest.now lexeme.len) }
{
    let first = rest.as_bytes()[0];
    if is_space(first) {
        Ok(Lexeme { kind: None, len: 1 })
    } else if first.is_ascii_digit() {
        number(rest, place)
    } else if is_word_byte(first) {
        word(alloc, rest)
    } else {
        sign(rest, place)
    }
}

/// The text or the name that a part with both its quotes is.
#[tactic(auto, unfolding(crate::specs::Lexeme::quoted_at))]
fn quoted(alloc: Global, part: &str, place: usize) -> Result<Lexeme, LexFault>
    requires long { 1 < length part.now }
    requires quoted { IsTrue (is_quote (slice_index part.now 0)) }
    requires closed { slice_index part.now (length part.now - 1) ≡ slice_index part.now 0 }
    ensures exact { Gives result (quoted_at place part.now) }
    ensures len { IfOk result (λ lexeme. lexeme.len ≡ length part.now) }
{
    let quote = part.as_bytes()[0];
    let held = unquoted(alloc, quote, &part[1..part.len() - 1])?;
    let size = held.as_str().len();
    let kind = if quote == b'`' {
        if size == 0 {
            return Err(LexFault::Bad {
                kind: LexKind::BadByte,
                place,
            });
        }
        TokenKind::QuotedName(held)
    } else {
        if size > MOST_BYTES {
            return Err(LexFault::Bad {
                kind: LexKind::TextTooLong,
                place,
            });
        }
        TokenKind::Text(held)
    };
    Ok(Lexeme {
        kind: Some(kind),
        len: part.len(),
    })
}

/// The word at the front, whose first byte is a word's.
#[tactic(auto, unfolding(crate::specs::Lexeme::word_at))]
fn word(alloc: Global, rest: &str) -> Result<Lexeme, LexFault>
    requires some { 0 < length rest.now }
    requires begins { IsTrue (is_word_byte (slice_index rest.now 0)) }
    ensures exact { Gives result (Ok (word_at rest.now)) }
    ensures some { IfOk result (λ lexeme. 0 < lexeme.len) }
    ensures cut { IfOk result (λ lexeme. IsCharBoundary rest.now lexeme.len) }
{
    let len = run_of_word_bytes(rest);
    let word = Text::from_str(alloc, &rest[..len])?;
    Ok(Lexeme {
        kind: Some(TokenKind::Word(word)),
        len,
    })
}

/// The number at the front, whose first byte is a digit.
#[tactic(auto, unfolding(crate::specs::Lexeme::number_at))]
fn number(rest: &str, place: usize) -> Result<Lexeme, LexFault>
    requires some { 0 < length rest.now }
    requires within { place + length rest.now < 2 ^ 64 }
    requires begins { IsTrue (is_ascii_digit (slice_index rest.now 0)) }
    ensures exact { Gives result (number_at place rest.now) }
    ensures some { IfOk result (λ lexeme. 0 < lexeme.len) }
    ensures cut { IfOk result (λ lexeme. IsCharBoundary rest.now lexeme.len) }
{
    let len = run_of_digits(rest);
    if len > MOST_DIGITS {
        return Err(LexFault::Bad {
            kind: LexKind::NumberTooLong,
            place,
        });
    }
    if let Some(&after) = rest.as_bytes().get(len)
        && is_word_byte(after)
    {
        return Err(LexFault::Bad {
            kind: LexKind::BadByte,
            place: place + len,
        });
    }
    let number = value_of(&rest[..len]);
    Ok(Lexeme {
        kind: Some(TokenKind::Number(number)),
        len,
    })
}

/// The sign at the front.
fn sign(rest: &str, place: usize) -> Result<Lexeme, LexFault>
    ensures exact { Gives result (sign_lexeme place (sign_at rest.now)) }
    ensures some { IfOk result (λ lexeme. 0 < lexeme.len) }
    ensures cut { IfOk result (λ lexeme. IsCharBoundary rest.now lexeme.len) }
{
    let Some(sign) = Sign::first(rest.as_bytes()) else {
        return Err(LexFault::Bad {
            kind: LexKind::BadByte,
            place,
        });
    };
    Ok(Lexeme {
        kind: Some(TokenKind::Sign(sign)),
        len: sign.spelling().len(),
    })
}

/// How many bytes of a word the text begins with. The text may be cut after them.
pub(crate) fn run_of_word_bytes(rest: &str) -> usize
    ensures length { result ≡ prefix_len is_word_byte rest.now }
    ensures cut { IsCharBoundary rest.now result }
{
    rest.bytes().take_while(|byte| is_word_byte(*byte)).count()
}

/// How many digits the text begins with.
fn run_of_digits(rest: &str) -> usize
    ensures { result ≡ prefix_len is_ascii_digit rest.now }
{
    rest.bytes().take_while(u8::is_ascii_digit).count()
}

/// The number that up to 38 digits are.
fn value_of(digits: &str) -> u128
    requires some { 0 < length digits.now }
    requires short { length digits.now ≤ 38 }
    requires digits { IsTrue (all_ascii_digits digits.now) }
    ensures { result ≡ digits_value 10 digits.now }
{
    digits.parse().unwrap()
}
