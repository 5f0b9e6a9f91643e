//! How a piece is read: its tokens, at their places in the script, and the tree that they are.

ghost use Rattle.std.specs.Prelude.{◌≡◌, ◌+◌, ◌<◌, ◌^◌, length, map, IfOk, IfErr};
ghost use Rattle.sa_lexer.specs.Grammar.{AreTokens};
ghost use Rattle.sa_lexer.specs.Faulty.{TellsFault};
ghost use Rattle.sa_parser.specs.Parse.{IsSetup, IsDirective, SetsUp};
ghost use Rattle.sa_script.specs.Reads.{ReadsAs, CantRead, HasLexFault};
ghost use Rattle.sa_script.specs.inner.Tells.{Tells};
ghost use Rattle.sa_script.specs.inner.Places as places;
ghost use Rattle.sa_script.specs.Reads as spec;

use crate::fault::{ScriptFault, ScriptKind};
use crate::piece::Piece;
use sa_ast::{Directive, Statement};
use sa_lexer::{LexFault, LexKind, Tokens, tokens};
use sa_parser::{ParseFault, parse_directive, parse_setup};
use std::alloc::Global;

/// The directive that a piece is.
pub(crate) fn read_directive(alloc: Global, piece: &Piece<'_>) -> Result<Directive, ScriptFault>
    requires { piece.now.place + length piece.now.text < 2 ^ 64 }
    ensures reads { IfOk result (ReadsAs IsDirective piece.now) }
    ensures fault { IfErr result (Tells (CantRead IsDirective piece.now)) }
{
    let tokens = tokens_in(alloc, piece)?;
    match parse_directive(alloc, &tokens) {
        Ok(tree) => Ok(tree),
        Err(fault) => Err(parse_fault(fault)),
    }
}

/// The statement that a piece is, which sets tables up.
pub(crate) fn read_setup(alloc: Global, piece: &Piece<'_>) -> Result<Statement, ScriptFault>
    requires { piece.now.place + length piece.now.text < 2 ^ 64 }
    ensures reads { IfOk result (ReadsAs IsSetup piece.now) }
    ensures sets_up { IfOk result SetsUp }
    ensures fault { IfErr result (Tells (CantRead IsSetup piece.now)) }
{
    let tokens = tokens_in(alloc, piece)?;
    match parse_setup(alloc, &tokens) {
        Ok(tree) => Ok(tree),
        Err(fault) => Err(parse_fault(fault)),
    }
}

/// The tokens of a piece, at their places in the script.
fn tokens_in(alloc: Global, piece: &Piece<'_>) -> Result<Tokens, ScriptFault>
    requires { piece.now.place + length piece.now.text < 2 ^ 64 }
    ensures are { IfOk result (AreTokens piece.now.place piece.now.text) }
    ensures fault { IfErr result (Tells (HasLexFault piece.now)) }
{
    let place = piece.place();
    match tokens(alloc, piece.text()) {
        Ok(tokens) => Ok(moved(tokens, place)),
        Err(fault) => Err(lex_fault(fault, place)),
    }
}

/// The tokens, so many bytes farther on.
fn moved(tokens: Tokens, by: usize) -> Tokens
    requires { places.EndBelow (2 ^ 64) by tokens }
    ensures { result ≡ map (places.moved by) tokens }
{
    let mut tokens = tokens.into_vec();
    for token in tokens.iter_mut() {
        token.start += by;
        token.end += by;
    }
    Tokens::from_vec(tokens)
}

/// A fault of the lexer, so many bytes farther on.
pub(crate) fn lex_fault(fault: LexFault, by: usize) -> ScriptFault
    requires { places.StandsBelow (2 ^ 64) by fault }
    ensures { result ≡ places.lex_fault by fault }
{
    match fault {
        LexFault::Bad { kind, place } => ScriptFault::at(lex_kind(kind), by + place),
        LexFault::OutOfMemory => ScriptFault::OutOfMemory,
    }
}

/// How a fault of the lexer is called.
fn lex_kind(kind: LexKind) -> ScriptKind
    ensures { result ≡ spec.lex_kind kind }
{
    match kind {
        LexKind::BadByte => ScriptKind::BadByte,
        LexKind::OpenText => ScriptKind::OpenText,
        LexKind::OpenComment => ScriptKind::OpenComment,
        LexKind::NumberTooLong => ScriptKind::NumberTooLong,
        LexKind::TextTooLong => ScriptKind::TextTooLong,
    }
}

/// A fault of the grammar, as one of the script.
fn parse_fault(fault: ParseFault) -> ScriptFault
    ensures { result ≡ places.parse_fault fault }
{
    match fault {
        ParseFault::Syntax { place } => ScriptFault::at(ScriptKind::Syntax, place),
        ParseFault::NotSupported { place } => ScriptFault::at(ScriptKind::NotSupported, place),
        ParseFault::TooDeep { place } => ScriptFault::at(ScriptKind::TooDeep, place),
        ParseFault::OutOfMemory => ScriptFault::OutOfMemory,
    }
}
