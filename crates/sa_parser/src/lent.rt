ghost use Rattle.std.specs.Prelude.{◌≡◌, ◌++◌, ◌∷◌, [], length, map, IfOk, OnOk};

use sa_lexer::Token;
use sa_value::OutOfMemory;
use std::alloc::Global;
use std::marker::Model;

/// Tokens that are lent to whoever reads them. Contracts see them as a list.
///
/// A statement of 16 MiB can be 16 million tokens, so none is copied for being read again with
/// another one in place of the last.
#[derive(Drop)]
pub(crate) struct Lent<'a> {
    tokens: Vec<&'a Token>,
}

impl<'a> Model for Lent<'a> {
    ghost use Rattle.std.specs.Prelude.{List, map};
    ghost use Rattle.sa_lexer.specs.declared.token.Token as token;

    ghost Value = { List token.Token };

    ghost view = { λ lent. map (λ token. token.now) lent.tokens.items };
}

impl<'a> Lent<'a> {
    /// All of these tokens, with room for one more behind them.
    pub(crate) fn of(alloc: Global, tokens: &'a [Token]) -> Result<Lent<'a>, OutOfMemory>
        ensures { IfOk result (λ lent. lent ≡ tokens.now) }
    {
        let mut lent = Lent {
            tokens: Vec::with_capacity(alloc, tokens.len() + 1)?,
        };
        for token in tokens {
            lent.push(token)?;
        }
        Ok(lent)
    }

    /// Puts a token behind them.
    pub(crate) fn push(&mut self, token: &'a Token) -> Result<(), OutOfMemory>
        ensures { OnOk result (self.new ≡ self.old ++ token.now ∷ []) }
    {
        self.tokens.push(token)?;
        Ok(())
    }

    /// How many they are.
    pub(crate) fn len(&self) -> usize
        ensures { result ≡ length self.now }
    {
        self.tokens.len()
    }

    /// The tokens themselves.
    pub(crate) fn as_slice(&self) -> &[&'a Token]
        ensures { map (λ token. token.now) result.now ≡ self.now }
    {
        &self.tokens
    }
}
