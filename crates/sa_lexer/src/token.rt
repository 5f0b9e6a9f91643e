use crate::sign::Sign;
use sa_value::{Sequence, Text};

/// What a token is.
#[derive(Debug, Drop)]
pub enum TokenKind {
    /// A keyword or a name, as it is written.
    Word(Text),
    /// A name in backquotes, with doubled backquotes undone.
    QuotedName(Text),
    /// A text in quotes, with doubled quotes and escapes undone.
    Text(Text),
    /// A number of up to 38 digits.
    Number(u128),
    /// A sign.
    Sign(Sign),
}

/// A token, and the bytes of the text that it spans: from `start`, counted from 0, up to `end`.
#[derive(Debug, Drop)]
pub struct Token {
    pub kind: TokenKind,
    pub start: usize,
    pub end: usize,
}

/// The tokens of a text, one after another.
pub type Tokens = Sequence<Token>;
