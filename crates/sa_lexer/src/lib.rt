//! The tokens of a text in SQL, each with the bytes that it spans, and where the pieces of a script end.
//!
//! The parser reads these tokens, and the reader of scripts cuts at these ends. The first fault of a
//! text, and its exact place, is answered for the person who wrote it. Which words are reserved stands here
//! too, for the parser and for the printer.
#![tactic(auto)]

mod byte;
mod fault;
mod first;
mod lexeme;
mod opening;
mod piece;
mod quoted;
mod reading;
mod reserved;
mod sign;
mod token;

pub use fault::{LexFault, LexKind};
pub use first::{FirstToken, first_token};
pub use piece::{PieceEnd, piece_end};
pub use reading::tokens;
pub use reserved::is_reserved;
pub use sign::Sign;
pub use token::{Token, TokenKind, Tokens};
