//! The tokens that are still to be read.

use sa_lexer::{Sign, Token, TokenKind};

/// The tokens that are still to be read.
#[derive(Clone, Copy)]
pub(crate) struct Cursor<'a> {
    rest: &'a [Token],
}

impl<'a> Cursor<'a> {
    /// A cursor at the first of these tokens.
    pub(crate) fn new(tokens: &'a [Token]) -> Cursor<'a> {
        Cursor { rest: tokens }
    }

    /// How many tokens are left.
    pub(crate) fn left(&self) -> usize {
        self.rest.len()
    }

    /// Takes the next token.
    pub(crate) fn take(&mut self) -> Option<&'a TokenKind> {
        let [token, rest @ ..] = self.rest else {
            return None;
        };
        self.rest = rest;
        Some(&token.kind)
    }

    /// Takes the next token if it is this word.
    pub(crate) fn takes_word(&mut self, word: &str) -> bool {
        match self.rest {
            [token, rest @ ..] if is_word(token, word) => {
                self.rest = rest;
                true
            }
            _ => false,
        }
    }

    /// Takes the next token if it is this sign.
    pub(crate) fn takes_sign(&mut self, sign: Sign) -> bool {
        match self.rest {
            [token, rest @ ..] if is_sign(token, sign) => {
                self.rest = rest;
                true
            }
            _ => false,
        }
    }
}

fn is_word(token: &Token, word: &str) -> bool {
    match &token.kind {
        TokenKind::Word(text) => text.as_str().eq_ignore_ascii_case(word),
        _ => false,
    }
}

fn is_sign(token: &Token, sign: Sign) -> bool {
    match &token.kind {
        TokenKind::Sign(found) => *found == sign,
        _ => false,
    }
}
