ghost use Rattle.std.specs.Prelude.{List, IfOk, IfErr, Ok, length};
ghost use Rattle.sa_lexer.specs.declared.token.Token.{Token};
ghost use Rattle.sa_lexer.specs.Fault.{Gives};
ghost use Rattle.sa_lexer.specs.Tokens.{tokens_of};
ghost use Rattle.sa_lexer.specs.Spans.{SpansRise, AllSpelled};
ghost use Rattle.sa_lexer.specs.Grammar.{AreTokens};
ghost use Rattle.sa_lexer.specs.Faulty.{TellsFault};

use crate::fault::LexFault;
use crate::lexeme::{Lexeme, first_lexeme};
use crate::token::{Token, Tokens};
use std::alloc::Global;

/// The tokens of a text, or its leftmost fault.
pub fn tokens(alloc: Global, text: &str) -> Result<Tokens, LexFault>
    // The tokens are those of the definition, and so is the fault.
    ensures exact { Gives result (tokens_of text.now) }
    // Between them are blanks alone, and each is as long as it can be.
    ensures whole { IfOk result (λ tokens. AreTokens 0 text.now tokens) }
    // A text that is such tokens is read as them, and as no others.
    ensures only { (tokens : List Token) → AreTokens 0 text.now tokens → Gives result (Ok tokens) }
    // Where it has a fault, tokens and blanks stand up to that.
    ensures faulty { IfErr result (TellsFault text.now) }
    ensures rise { IfOk result (λ tokens. SpansRise 0 (length text.now) tokens) }
    ensures spelled { IfOk result (λ tokens. AllSpelled text.now tokens) }
{
    let mut tokens = Vec::new(alloc);
    let mut rest = text;
    let mut place = 0;
    while !rest.is_empty() {
        let Lexeme { kind, len } = first_lexeme(alloc, rest, place)?;
        let end = place + len;
        if let Some(kind) = kind {
            tokens.push(Token {
                kind,
                start: place,
                end,
            })?;
        }
        rest = &rest[len..];
        place = end;
    }
    Ok(Tokens::from_vec(tokens))
}
