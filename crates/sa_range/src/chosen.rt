ghost use Rattle.std.specs.Prelude.{◌≡◌, option_map};
ghost use Rattle.sa_range.specs.Atom.{piece_at};
ghost use Rattle.sa_range.specs.inner.Placed.{chosen_at};

use crate::line::Piece;

/// The pieces on which columns stand: the first columns on the points of a sequence, and one more
/// on a piece of its line.
#[derive(Drop)]
pub(crate) struct Chosen<'a> {
    pub(crate) columns: &'a [u32],
    pub(crate) points: &'a [Piece],
    pub(crate) column: u32,
    pub(crate) piece: &'a Piece,
}

impl<'a> Chosen<'a> {
    /// The piece on which a column stands, if one is chosen.
    pub(crate) fn piece_at(&self, column: u32) -> Option<&'a Piece>
        ensures { option_map (λ piece. piece.now) result ≡ piece_at column (chosen_at self.now) }
    {
        let columns = self.columns;
        let points = self.points;
        let mut index = 0;
        while index < columns.len() && index < points.len() {
            if columns[index] == column {
                return Some(&points[index]);
            }
            index += 1;
        }
        if self.column == column {
            Some(self.piece)
        } else {
            None
        }
    }
}
