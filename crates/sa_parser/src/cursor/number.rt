//! The tokens of numbers, and the place of the next token.

ghost use Rattle.std.specs.Prelude.{◌≡◌, ◌<◌, IfOk, IfSome};
ghost use Rattle.sa_parser.specs.Token as spec;
ghost use Rattle.sa_parser.specs.inner.Reading as reading;
ghost use Rattle.sa_parser.specs.inner.Reads.{Reads};

use crate::cursor::Cursor;
use crate::fault::ReadFault;
use sa_lexer::{Token, TokenKind};

impl<'a> Cursor<'a> {
    /// The place of the next token; 0 where there is none.
    pub(crate) fn place(&self) -> usize
        ensures { result ≡ spec.first_place self.now }
    {
        match self.rest {
            [token, ..] => token.start,
            [] => 0,
        }
    }

    /// The next token, which has to be a number.
    #[tactic(auto, unfolding(crate::specs::inner::Reading::one))]
    pub(crate) fn number(&mut self) -> Result<u128, ReadFault>
        ensures { Reads (reading.number self.old) result self.new }
    {
        match self.rest {
            [token, rest @ ..] => match token.kind {
                TokenKind::Number(number) => {
                    self.rest = rest;
                    Ok(number)
                }
                _ => Err(self.refuse()),
            },
            [] => Err(self.refuse()),
        }
    }

    /// The next token, which has to be a number below a bound.
    #[tactic(auto, unfolding(crate::specs::inner::Reading::one))]
    pub(crate) fn number_below(&mut self, bound: u128) -> Result<u128, ReadFault>
        ensures read { Reads (reading.number_below bound self.old) result self.new }
        ensures below { IfOk result (λ number. number < bound) }
    {
        let [token, rest @ ..] = self.rest else {
            return Err(self.refuse());
        };
        let Some(number) = number_of(token, bound) else {
            return Err(self.refuse());
        };
        self.rest = rest;
        Ok(number)
    }
}

/// The number below a bound that a token is.
pub(crate) fn number_of(token: &Token, bound: u128) -> Option<u128>
    ensures number { result ≡ spec.number_of bound token.now.kind }
    ensures below { IfSome result (λ number. number < bound) }
{
    match token.kind {
        TokenKind::Number(number) if number < bound => Some(number),
        _ => None,
    }
}
