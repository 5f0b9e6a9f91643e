ghost use Rattle.std.specs.Prelude.{◌≡◌, length, option_map};
ghost use Rattle.sa_parser.specs.Token as spec;
ghost use Rattle.sa_parser.specs.inner.Reading as reading;
ghost use Rattle.sa_parser.specs.inner.Reads.{Reads};

mod directive;
mod expression;
mod number;
mod select;
mod setup;
mod statement;

use crate::fault::ReadFault;
use crate::lent::Lent;
use sa_ast::NameTree;
use sa_lexer::{Sign, Token, TokenKind, is_reserved};
use sa_value::Text;
use std::alloc::Global;
use std::marker::Model;

/// The tokens that are still to be read. Contracts see them as a list.
#[derive(Drop)]
pub(crate) struct Cursor<'a> {
    rest: &'a [&'a Token],
}

impl<'a> Model for Cursor<'a> {
    ghost use Rattle.std.specs.Prelude.{List, map};
    ghost use Rattle.sa_lexer.specs.declared.token.Token as token;

    ghost Value = { List token.Token };

    ghost view = { λ cursor. map (λ token. token.now) cursor.rest.now };
}

impl<'a> Cursor<'a> {
    /// A cursor at the first of these tokens.
    pub(crate) fn new(tokens: &'a Lent<'_>) -> Cursor<'a>
        ensures { result ≡ tokens.now }
    {
        Cursor {
            rest: tokens.as_slice(),
        }
    }

    /// How many tokens are left.
    pub(crate) fn left(&self) -> usize
        ensures { result ≡ length self.now }
    {
        self.rest.len()
    }

    /// The fault that the next token is.
    pub(crate) fn refuse(&self) -> ReadFault
        ensures { result ≡ ReadFault.Left (length self.now) }
    {
        ReadFault::Left(self.left())
    }

    /// Whether the next token is this word.
    #[tactic(auto, unfolding(crate::specs::inner::Reading::sees_word))]
    pub(crate) fn sees_word(&self, text: &str) -> bool
        ensures { result ≡ reading.sees_word text.now self.now }
    {
        match self.rest {
            [token, ..] => is_word(token, text),
            [] => false,
        }
    }

    /// Whether the next token is this sign.
    #[tactic(auto, unfolding(crate::specs::inner::Reading::sees_sign))]
    pub(crate) fn sees_sign(&self, sign: Sign) -> bool
        ensures { result ≡ reading.sees_sign sign self.now }
    {
        match self.rest {
            [token, ..] => is_sign(token, sign),
            [] => false,
        }
    }

    /// Whether the next token is a name.
    #[tactic(auto, unfolding(crate::specs::inner::Reading::sees_name))]
    pub(crate) fn sees_name(&self) -> bool
        ensures { result ≡ reading.sees_name self.now }
    {
        match self.rest {
            [token, ..] => name_of(token).is_some(),
            [] => false,
        }
    }

    /// The place of the next token, which has to be this word.
    #[tactic(auto, unfolding(crate::specs::inner::Reading::one))]
    pub(crate) fn word(&mut self, text: &str) -> Result<usize, ReadFault>
        ensures { Reads (reading.word text.now self.old) result self.new }
    {
        match self.rest {
            [token, rest @ ..] if is_word(token, text) => {
                self.rest = rest;
                Ok(token.start)
            }
            _ => Err(self.refuse()),
        }
    }

    /// The place of the next token, which has to be this sign.
    #[tactic(auto, unfolding(crate::specs::inner::Reading::one))]
    pub(crate) fn sign(&mut self, sign: Sign) -> Result<usize, ReadFault>
        ensures { Reads (reading.sign sign self.old) result self.new }
    {
        match self.rest {
            [token, rest @ ..] if is_sign(token, sign) => {
                self.rest = rest;
                Ok(token.start)
            }
            _ => Err(self.refuse()),
        }
    }

    /// The next token, which has to be a name.
    #[tactic(auto, unfolding(crate::specs::inner::Reading::one))]
    pub(crate) fn name(&mut self, alloc: Global) -> Result<NameTree, ReadFault>
        ensures { Reads (reading.name self.old) result self.new }
    {
        let [token, rest @ ..] = self.rest else {
            return Err(self.refuse());
        };
        let Some(name) = name_of(token) else {
            return Err(self.refuse());
        };
        let name = Text::from_str(alloc, name)?;
        self.rest = rest;
        Ok(NameTree {
            name,
            place: token.start,
        })
    }
}

/// Whether a token is this word, in either case of its letters.
#[tactic(auto, unfolding(crate::specs::Token::is_word))]
pub(crate) fn is_word(token: &Token, text: &str) -> bool
    ensures { result ≡ spec.is_word text.now token.now.kind }
{
    match &token.kind {
        TokenKind::Word(word) => text.eq_ignore_ascii_case(word.as_str()),
        _ => false,
    }
}

/// Whether a token is this sign.
#[tactic(auto, unfolding(crate::specs::Token::is_sign))]
pub(crate) fn is_sign(token: &Token, sign: Sign) -> bool
    ensures { result ≡ spec.is_sign sign token.now.kind }
{
    match &token.kind {
        TokenKind::Sign(other) => sign.spelling() == other.spelling(),
        _ => false,
    }
}

/// The name that a token is: a word that isn't reserved, or whatever stands in backquotes.
#[tactic(auto, unfolding(crate::specs::Token::name_of))]
pub(crate) fn name_of(token: &Token) -> Option<&str>
    ensures { option_map (λ name. name.now) result ≡ spec.name_of token.now.kind }
{
    match &token.kind {
        TokenKind::Word(word) if !is_reserved(word.as_str()) => Some(word.as_str()),
        TokenKind::QuotedName(name) => Some(name.as_str()),
        _ => None,
    }
}
