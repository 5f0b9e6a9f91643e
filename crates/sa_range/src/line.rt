ghost use Rattle.std.specs.Prelude.{◌≡◌, IfOk};

use sa_value::{OutOfMemory, Sequence, Value};
use std::alloc::Global;

/// A piece of the line of a key part: one value, or all values between two neighbours. The last gap
/// has no end.
#[derive(Debug, Drop)]
pub enum Piece {
    Point(Value),
    Gap { lower: Value, upper: Option<Value> },
}

/// Pieces, one after another.
pub type Pieces = Sequence<Piece>;

impl Piece {
    /// An equal piece, whose texts take memory from `alloc`.
    pub(crate) fn copy(&self, alloc: Global) -> Result<Piece, OutOfMemory>
        ensures { IfOk result (λ piece. piece ≡ self.now) }
    {
        match self {
            Piece::Point(value) => Ok(Piece::Point(value.copy(alloc)?)),
            Piece::Gap { lower, upper: None } => Ok(Piece::Gap {
                lower: lower.copy(alloc)?,
                upper: None,
            }),
            Piece::Gap {
                lower,
                upper: Some(value),
            } => Ok(Piece::Gap {
                lower: lower.copy(alloc)?,
                upper: Some(value.copy(alloc)?),
            }),
        }
    }
}

/// Equal pieces, whose texts take memory from `alloc`.
pub(crate) fn copied(alloc: Global, pieces: &[Piece]) -> Result<Pieces, OutOfMemory>
    ensures { IfOk result (λ copy. copy ≡ pieces.now) }
{
    let mut copy = Pieces::new(alloc);
    for piece in pieces {
        copy.push(piece.copy(alloc)?)?;
    }
    Ok(copy)
}
