//! What sessions begin with.

ghost use Rattle.std.specs.Prelude.{◌≡◌, ◌≤◌, IfOk};
ghost use Rattle.sa_board.specs.Board.{new_passes};
ghost use Rattle.sa_board_tests.specs.Start.{AreEven};

use sa_board::{Board, Pass};
use sa_desk::Desk;
use sa_value::OutOfMemory;
use std::alloc::Global;

/// A board of a desk for each of so many sessions, each with the same share of each desk, and their
/// passes.
pub fn board_of(
    alloc: Global,
    sessions: u32,
    quantum: u32,
    turns: u64,
    share: u32,
) -> Result<(Board, Vec<Pass>), OutOfMemory>
    requires one { 1 ≤ sessions }
    requires few { sessions ≤ 16 }
    requires least { 1 ≤ quantum }
    requires most { quantum ≤ 64 }
    requires turns { 1 ≤ turns }
    requires share { share ≤ 65536 }
    ensures board { IfOk result (λ made. AreEven made.0.founded sessions quantum turns share) }
    ensures passes { IfOk result (λ made. made.1.items ≡ new_passes made.0) }
{
    Board::new(alloc, desks_of(alloc, sessions, quantum, turns, share)?)
}

/// A desk for each of so many sessions, each with the same share of each desk.
fn desks_of(
    alloc: Global,
    sessions: u32,
    quantum: u32,
    turns: u64,
    share: u32,
) -> Result<Vec<Desk>, OutOfMemory>
    requires few { sessions ≤ 16 }
    requires least { 1 ≤ quantum }
    requires most { quantum ≤ 64 }
    requires turns { 1 ≤ turns }
    requires share { share ≤ 65536 }
    ensures { IfOk result (λ desks. AreEven desks.items sessions quantum turns share) }
{
    let shares = vec![in alloc; share; sessions as usize]?;
    let mut desks = Vec::with_capacity(alloc, sessions as usize)?;
    for number in 1..sessions + 1 {
        let desk = Desk::new(alloc, number, quantum, turns, shares.as_slice())?;
        desks.push_reserved(desk);
    }
    Ok(desks)
}
