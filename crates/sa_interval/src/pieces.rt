ghost use Rattle.std.specs.Prelude.{IfOk};
ghost use Rattle.sa_interval.specs.Canonical.{ArePieces, IsListOf, lies_in};

use crate::growing::put;
use sa_key::{KeyRanges, order_of_cuts_is_total};
use sa_value::OutOfMemory;
use std::alloc::Global;

/// The canonical list of pieces that rise and are disjoint: neighbours that touch are united, empty
/// pieces dropped, and cuts written in canonical form. The list takes memory from `alloc`.
pub fn canonical(alloc: Global, pieces: KeyRanges) -> Result<KeyRanges, OutOfMemory>
    requires { ArePieces pieces }
    ensures { IfOk result (IsListOf (lies_in pieces)) }
{
    order_of_cuts_is_total();
    let mut list = Vec::new(alloc);
    for piece in pieces.into_vec() {
        put(&mut list, piece.canonical())?;
    }
    Ok(KeyRanges::from_vec(list))
}
