//! The tokens of a session's statements.

ghost use Rattle.std.specs.Prelude.{◌≡◌, ◌<◌, ◌^◌, ◌+◌, IfOk, IfSome};
ghost use Rattle.sa_parser.specs.StatementGrammar as spec;
ghost use Rattle.sa_parser.specs.inner.StatementReading as statements;
ghost use Rattle.sa_parser.specs.inner.Reading as reading;
ghost use Rattle.sa_parser.specs.inner.Reads.{Reads};

use crate::cursor::number::number_of;
use crate::cursor::{Cursor, is_sign, is_word};
use crate::fault::ReadFault;
use sa_lexer::{Sign, Token, TokenKind};

/// What every number of row steps is below.
const STEP_COUNTS: u128 = (1 << 40) + 1;

impl<'a> Cursor<'a> {
    /// Whether what comes next is the query for the trace, up to its dot.
    #[tactic(auto, unfolding(crate::specs::inner::StatementReading::sees_trace))]
    pub(crate) fn sees_trace(&self) -> bool
        ensures { result ≡ statements.sees_trace self.now }
    {
        match self.rest {
            [first, second, third, fourth, fifth, ..] => {
                is_word(first, "SELECT")
                    && is_sign(second, Sign::Star)
                    && is_word(third, "FROM")
                    && is_word(fourth, "information_schema")
                    && is_sign(fifth, Sign::Dot)
            }
            _ => false,
        }
    }

    /// The next token, which has to be a text that switches the trace on or off.
    #[tactic(auto, unfolding(crate::specs::inner::Reading::one))]
    pub(crate) fn switch(&mut self) -> Result<bool, ReadFault>
        ensures { Reads (reading.one spec.switch_in self.old) result self.new }
    {
        let [token, rest @ ..] = self.rest else {
            return Err(self.refuse());
        };
        let Some(is_on) = switch_of(token) else {
            return Err(self.refuse());
        };
        self.rest = rest;
        Ok(is_on)
    }

    /// The next token, which has to be a number of row steps.
    pub(crate) fn step_count(&mut self) -> Result<u64, ReadFault>
        ensures { Reads (reading.number_below (2 ^ 40 + 1) self.old) result self.new }
    {
        let count = self.number_below(STEP_COUNTS)?;
        Ok(count as u64)
    }

    /// The next token, which has to be a number of row steps, and not 0.
    #[tactic(auto, unfolding(crate::specs::inner::Reading::one))]
    pub(crate) fn steps(&mut self) -> Result<u64, ReadFault>
        ensures { Reads (reading.one spec.steps_in self.old) result self.new }
    {
        let [token, rest @ ..] = self.rest else {
            return Err(self.refuse());
        };
        let Some(steps) = steps_of(token) else {
            return Err(self.refuse());
        };
        self.rest = rest;
        Ok(steps)
    }
}

/// Whether a text switches the trace on, if it switches it on or off.
#[tactic(auto, unfolding(crate::specs::StatementGrammar::switch_of))]
fn switch_of(token: &Token) -> Option<bool>
    ensures { result ≡ spec.switch_of token.now.kind }
{
    match &token.kind {
        TokenKind::Text(text) if text.as_str() == "enabled=on" => Some(true),
        TokenKind::Text(text) if text.as_str() == "enabled=off" => Some(false),
        _ => None,
    }
}

/// The number of row steps that a token is, from 1 on.
#[tactic(auto, unfolding(crate::specs::StatementGrammar::steps_in))]
fn steps_of(token: &Token) -> Option<u64>
    ensures { result ≡ spec.steps_in token.now }
{
    match number_of(token, STEP_COUNTS) {
        Some(steps) if steps > 0 => Some(steps as u64),
        _ => None,
    }
}
