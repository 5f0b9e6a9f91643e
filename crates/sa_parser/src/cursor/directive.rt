//! The tokens of directives.

ghost use Rattle.std.specs.Prelude.{◌≡◌};
ghost use Rattle.sa_parser.specs.inner.DirectiveReading as reading;
ghost use Rattle.sa_parser.specs.inner.Reads.{Reads};

use crate::cursor::Cursor;
use crate::fault::ReadFault;
use sa_ast::NumberTree;
use sa_lexer::TokenKind;

impl<'a> Cursor<'a> {
    /// Whether the next token is a number.
    #[tactic(auto, unfolding(crate::specs::inner::DirectiveReading::sees_number))]
    pub(crate) fn sees_number(&self) -> bool
        ensures { result ≡ reading.sees_number self.now }
    {
        match self.rest {
            [token, ..] => matches!(token.kind, TokenKind::Number(_)),
            [] => false,
        }
    }

    /// The next token, which has to be a number, with its place.
    #[tactic(auto, unfolding(crate::specs::inner::Reading::one))]
    pub(crate) fn placed_number(&mut self) -> Result<NumberTree, ReadFault>
        ensures { Reads (reading.placed_number self.old) result self.new }
    {
        match self.rest {
            [token, rest @ ..] => match token.kind {
                TokenKind::Number(number) => {
                    self.rest = rest;
                    Ok(NumberTree {
                        number,
                        place: token.start,
                    })
                }
                _ => Err(self.refuse()),
            },
            [] => Err(self.refuse()),
        }
    }
}
