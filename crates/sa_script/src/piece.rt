ghost use Rattle.std.specs.Prelude.{◌≡◌, ◌≤◌, length, drop, IfOk, IfErr};
ghost use Rattle.std.specs.Str.{IsCharBoundary};
ghost use Rattle.sa_script.specs.Piece.{IsPiece, place_behind};
ghost use Rattle.sa_script.specs.Says.{IsLeftOpen};
ghost use Rattle.sa_script.specs.inner.Tells.{Tells};

use crate::fault::ScriptFault;
use crate::reads::lex_fault;
use sa_lexer::piece_end;
use std::marker::Model;

/// A piece of a script. Contracts see its place, its text, and whether a `;` ends it.
#[derive(Drop)]
pub(crate) struct Piece<'a> {
    place: usize,
    text: &'a str,
    closed: bool,
}

impl<'a> Model for Piece<'a> {
    ghost use Rattle.sa_script.specs.Piece as spec;

    ghost Value = { spec.Piece };

    ghost view = { λ piece. record { place = piece.place; text = piece.text.now; closed = piece.closed } };
}

impl<'a> Piece<'a> {
    /// Its first byte in the script.
    pub(crate) fn place(&self) -> usize
        ensures { result ≡ self.now.place }
    {
        self.place
    }

    /// The text up to the `;`.
    pub(crate) fn text(&self) -> &'a str
        ensures { result.now ≡ self.now.text }
    {
        self.text
    }

    /// Whether a `;` ends it.
    pub(crate) fn is_closed(&self) -> bool
        ensures { result ≡ self.now.closed }
    {
        self.closed
    }

    /// The place directly behind it and its `;`.
    pub(crate) fn behind(&self) -> usize
        requires { place_behind self.now ≤ usize.MAX }
        ensures { result ≡ place_behind self.now }
    {
        self.place + self.text.len() + usize::from(self.closed)
    }
}

/// The piece of a script that begins at a place.
pub(crate) fn piece_at(script: &str, place: usize) -> Result<Piece<'_>, ScriptFault>
    requires { IsCharBoundary script.now place }
    ensures place { IfOk result (λ piece. piece.place ≡ place) }
    ensures is { IfOk result
        (λ piece. IsPiece script.now piece (drop (place_behind piece) script.now)) }
    ensures within { IfOk result (λ piece. place_behind piece ≤ length script.now) }
    ensures cut { IfOk result (λ piece. IsCharBoundary script.now (place_behind piece)) }
    ensures fault { IfErr result (Tells (IsLeftOpen script.now place)) }
{
    match piece_end(script, place) {
        Ok(found) => Ok(Piece {
            place,
            text: &script[place..found.end],
            closed: found.closed,
        }),
        Err(fault) => Err(lex_fault(fault, 0)),
    }
}
