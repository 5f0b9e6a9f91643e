//! What comes next in a query.

ghost use Rattle.std.specs.Prelude.{◌≡◌};
ghost use Rattle.sa_parser.specs.inner.SelectReading as reading;

use crate::cursor::{Cursor, is_sign, name_of};
use sa_lexer::Sign;

impl<'a> Cursor<'a> {
    /// Whether a name, a dot and a star come next.
    #[tactic(auto, unfolding(crate::specs::inner::SelectReading::sees_table_star))]
    pub(crate) fn sees_table_star(&self) -> bool
        ensures { result ≡ reading.sees_table_star self.now }
    {
        match self.rest {
            [first, second, third, ..] => {
                name_of(first).is_some() && is_sign(second, Sign::Dot) && is_sign(third, Sign::Star)
            }
            _ => false,
        }
    }

    /// Whether a further table comes next, joined to the last one.
    pub(crate) fn sees_join(&self) -> bool
        ensures { result ≡ reading.sees_join self.now }
    {
        self.sees_word("INNER") || self.sees_word("CROSS") || self.sees_word("JOIN")
    }

    /// Whether the second number of a LIMIT comes next.
    pub(crate) fn sees_second(&self) -> bool
        ensures { result ≡ reading.sees_second self.now }
    {
        self.sees_sign(Sign::Comma) || self.sees_word("OFFSET")
    }
}
