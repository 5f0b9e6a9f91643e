ghost use Rattle.std.specs.Prelude.{◌+◌, ◌≤◌, IfOk, IfErr, IsTrue};
ghost use Rattle.std.specs.Str.{IsCharBoundary};
ghost use Rattle.sa_lexer.specs.Fault.{Answers, IsOpen};
ghost use Rattle.sa_lexer.specs.Faulty.{TellsOpen};
ghost use Rattle.sa_lexer.specs.Piece.{piece_end_at, EndsPiece};

use crate::fault::LexFault;
use crate::opening::len_at;

/// Where a piece of a script ends.
#[derive(Clone, Copy, Debug, PartialEq, Eq)]
pub struct PieceEnd {
    /// The place of the `;`, or of the text's end.
    pub end: usize,
    /// Whether a `;` stands there.
    pub closed: bool,
}

/// The end of the piece that begins at `from`: the first `;` outside quotes and comments, or the text's end.
///
/// A part in quotes or a comment without its end is the only fault. It takes no memory.
pub fn piece_end(text: &str, from: usize) -> Result<PieceEnd, LexFault>
    requires { IsCharBoundary text.now from }
    ensures exact { Answers result (piece_end_at from text.now) }
    // Up to the end there is no `;` but in quotes and comments, and at the end there is one or nothing.
    ensures whole { IfOk result (EndsPiece from text.now) }
    ensures after { IfOk result (λ piece. from ≤ piece.end) }
    ensures cut { IfOk result (λ piece. IsCharBoundary text.now piece.end) }
    // Behind the semicolon the next piece begins.
    ensures next { IfOk result
        (λ piece. IsTrue piece.closed → IsCharBoundary text.now (piece.end + 1)) }
    // Where it has a fault, stretches without a semicolon stand up to that.
    ensures faulty { IfErr result (TellsOpen from text.now) }
    ensures open_alone { IfErr result IsOpen }
{
    let bytes = text.as_bytes();
    let mut place = from;
    while place < bytes.len() {
        if bytes[place] == b';' {
            return Ok(PieceEnd {
                end: place,
                closed: true,
            });
        }
        place += len_at(&bytes[place..], place)?;
    }
    Ok(PieceEnd {
        end: place,
        closed: false,
    })
}
