//! The tokens of a statement that sets tables up.

ghost use Rattle.std.specs.Prelude.{◌≡◌, IfOk};
ghost use Rattle.sa_parser.specs.SetupTree as spec;
ghost use Rattle.sa_parser.specs.inner.SetupReading as setup;
ghost use Rattle.sa_parser.specs.inner.Reading as reading;
ghost use Rattle.sa_parser.specs.inner.Reads.{Reads};

use crate::cursor::{Cursor, is_sign, is_word};
use crate::fault::ReadFault;
use crate::value::number_value;
use sa_lexer::{Sign, Token, TokenKind};
use sa_value::{OutOfMemory, Value};
use std::alloc::Global;

impl<'a> Cursor<'a> {
    /// Whether an option of a column comes next.
    pub(crate) fn sees_option(&self) -> bool
        ensures { result ≡ setup.sees_option self.now }
    {
        self.sees_word("NOT")
            || self.sees_word("NULL")
            || self.sees_word("DEFAULT")
            || self.sees_word("PRIMARY")
            || self.sees_word("UNIQUE")
    }

    /// Whether KEY or INDEX comes next.
    pub(crate) fn sees_key_word(&self) -> bool
        ensures { result ≡ setup.sees_key_word self.now }
    {
        self.sees_word("KEY") || self.sees_word("INDEX")
    }

    /// How many values stand before the next closing bracket, in a row that is read. Elsewhere the
    /// number says nothing.
    pub(crate) fn values_ahead(&self) -> usize {
        self.rest
            .iter()
            .take_while(|token| !is_sign(token, Sign::RightParen))
            .filter(|token| !matches!(token.kind, TokenKind::Sign(_)))
            .count()
    }

    /// The next token, which has to be a value by itself: a number, a text, or NULL.
    #[tactic(auto, unfolding(crate::specs::inner::Reading::one))]
    pub(crate) fn value(&mut self, alloc: Global) -> Result<Value, ReadFault>
        ensures { Reads (reading.one spec.literal_in self.old) result self.new }
    {
        let [token, rest @ ..] = self.rest else {
            return Err(self.refuse());
        };
        let Some(value) = value_of(alloc, token)? else {
            return Err(self.refuse());
        };
        self.rest = rest;
        Ok(value)
    }
}

/// The value that a token is by itself.
#[tactic(auto, unfolding(crate::specs::SetupTree::literal_of))]
fn value_of(alloc: Global, token: &Token) -> Result<Option<Value>, OutOfMemory>
    ensures { IfOk result (λ value. value ≡ spec.literal_in token.now) }
{
    Ok(match &token.kind {
        TokenKind::Number(number) => match i128::try_from(*number) {
            Ok(number) => Some(number_value(number)),
            Err(_) => None,
        },
        TokenKind::Text(text) => Some(Value::Text(text.copy(alloc)?)),
        TokenKind::Word(_) if is_word(token, "NULL") => Some(Value::Null),
        _ => None,
    })
}
