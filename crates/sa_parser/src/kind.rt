//! What kind a fault is: whether the faulty token asks for something that MariaDB has and this
//! product has not.

ghost use Rattle.std.specs.Prelude.{◌≡◌, ◌↔◌, ◌∷◌, ◌++◌, [], IfOk, IsTrue};
ghost use Rattle.sa_parser.specs.Fault as spec;
ghost use Rattle.sa_parser.specs.Fault.{Begins, in_place_of, ReadAsName, StandsForKind, AsksForMore};
ghost use Rattle.sa_parser.specs.inner.Grammar.{form_of};

use crate::cursor::name_of;
use crate::grammar::Grammar;
use crate::lent::Lent;
use crate::words::is_among;
use sa_lexer::{Sign, Token, TokenKind};
use sa_value::{OutOfMemory, Text};
use std::alloc::Global;

/// The words that ask for something that MariaDB has and this product has not.
///
/// Source: MariaDB Knowledge Base, "SQL Statements & Structure"; the list is this project's.
const UNSUPPORTED_WORDS: [&str; 46] = [
    "ALTER",
    "AUTO_INCREMENT",
    "BEGIN",
    "CASE",
    "CHARACTER",
    "CHARSET",
    "COLLATE",
    "COMMENT",
    "COMMIT",
    "CONSTRAINT",
    "CREATE",
    "DEFAULT",
    "DELETE",
    "DIV",
    "DROP",
    "EXCEPT",
    "EXISTS",
    "FOR",
    "FOREIGN",
    "FULL",
    "HARD",
    "ID",
    "INSERT",
    "INTERSECT",
    "INTO",
    "LEFT",
    "LIKE",
    "LOCK",
    "MOD",
    "NATURAL",
    "OVER",
    "REGEXP",
    "RIGHT",
    "RLIKE",
    "SELECT",
    "SOFT",
    "STRAIGHT_JOIN",
    "TRADITIONAL",
    "UNION",
    "UNSIGNED",
    "UPDATE",
    "USER",
    "USING",
    "WINDOW",
    "WITH",
    "XOR",
];

/// Whether a faulty token behind `before` asks for something that this product has not.
pub(crate) fn is_unsupported(
    alloc: Global,
    grammar: Grammar,
    before: &[Token],
    token: &Token,
) -> Result<bool, OutOfMemory>
    ensures { IfOk result (λ found. IsTrue found
        ↔ AsksForMore (form_of grammar) before.now token.now token.now.kind) }
{
    match &token.kind {
        TokenKind::Sign(Sign::OrOr | Sign::Slash | Sign::Percent) => Ok(true),
        TokenKind::Sign(Sign::LeftParen) => is_read_as_name(alloc, grammar, before),
        TokenKind::Text(_) => {
            let switch = TokenKind::Text(Text::from_str(alloc, "enabled=on")?);
            begins_with(alloc, grammar, before, token, switch)
        }
        TokenKind::Word(_) if is_among(&UNSUPPORTED_WORDS, token) => Ok(true),
        TokenKind::Word(_) => stands_for_kind(alloc, grammar, before, token),
        _ => Ok(false),
    }
}

/// Whether the last of the tokens was read as a name.
fn is_read_as_name(alloc: Global, grammar: Grammar, before: &[Token]) -> Result<bool, OutOfMemory>
    ensures { IfOk result (λ found. IsTrue found ↔ ReadAsName (form_of grammar) before.now) }
{
    match before {
        [earlier @ .., last] if name_of(last).is_some() => {
            begins_with(alloc, grammar, earlier, last, some_name(alloc)?)
        }
        _ => Ok(false),
    }
}

/// Whether the token stands where the kind of a column has to.
fn stands_for_kind(
    alloc: Global,
    grammar: Grammar,
    before: &[Token],
    token: &Token,
) -> Result<bool, OutOfMemory>
    ensures { IfOk result (λ found. IsTrue found
        ↔ StandsForKind (form_of grammar) before.now token.now) }
{
    let int = TokenKind::Word(Text::from_str(alloc, "INT")?);
    if !begins_with(alloc, grammar, before, token, int)? {
        return Ok(false);
    }
    Ok(!begins_with(alloc, grammar, before, token, some_name(alloc)?)?)
}

/// A name that is one in any place.
fn some_name(alloc: Global) -> Result<TokenKind, OutOfMemory>
    ensures { IfOk result (λ kind. kind ≡ spec.some_name) }
{
    Ok(TokenKind::QuotedName(Text::from_str(alloc, "n")?))
}

/// Whether the tokens begin a statement with a token of this kind in the place of the last one.
fn begins_with(
    alloc: Global,
    grammar: Grammar,
    before: &[Token],
    last: &Token,
    kind: TokenKind,
) -> Result<bool, OutOfMemory>
    ensures { IfOk result (λ found. IsTrue found
        ↔ Begins (form_of grammar) (before.now ++ in_place_of last.now kind ∷ [])) }
{
    let other = Token {
        kind,
        start: last.start,
        end: last.end,
    };
    let mut tokens = Lent::of(alloc, before)?;
    tokens.push(&other)?;
    grammar.begins(alloc, &tokens)
}
