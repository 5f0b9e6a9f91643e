ghost use Rattle.std.specs.Prelude.{◌≡◌, ℕ, ◌≤◌, ◌+◌, [], ◌∷◌, map, length, replicate, Some, All, IfOk};
ghost use Rattle.std.specs.List.{range_with_len};
ghost use Rattle.std.specs.Vec.{vec_capacity};
ghost use Rattle.sa_desk.specs.New.{AreNew};
ghost use Rattle.sa_desk.specs.World.{IsFirst};
ghost use Rattle.sa_board.specs.Board.{new_pass, new_passes};
ghost use Rattle.sa_board.specs.Pass.{world_of};
ghost use Rattle.sa_board.specs.View.{first_view, newcomer};
ghost use Rattle.sa_board.specs.inner.Pass.{one_of};

use crate::board::{Board, Place};
use crate::pass::Pass;
use crate::plays::{Born, Order};
use crate::view::View;
use arrayvec::ArrayVec;
use atomic_table::Table;
use sa_desk::Desk;
use sa_value::OutOfMemory;
use std::alloc::Global;
use std::snapshot::Snapshot;

impl Board {
    /// A board of new desks, numbered 1, 2 and so on, each with as many shares as there are desks,
    /// and a pass for each of their sessions, in their order. It reserves the list of journals that
    /// `finish` gives.
    pub fn new(alloc: Global, desks: Vec<Desk>) -> Result<(Board, Vec<Pass>), OutOfMemory>
        requires new { AreNew desks.items }
        requires least { 1 ≤ length desks.items }
        ensures board { IfOk result (λ made. made.0.founded ≡ desks.items) }
        ensures passes { IfOk result (λ made. made.1.items ≡ new_passes made.0) }
        ensures first { IfOk result (λ made. All (λ pass. IsFirst (world_of pass)) made.1.items) }
    {
        let passes = Vec::with_capacity(alloc, desks.len())?;
        let (board, first) = found(alloc, desks)?;
        let passes = give_passes(&board, first, passes)?;
        Ok((board, passes))
    }
}

/// Puts new desks into the slots of a board's table, whose first seat stands for session 1.
fn found(alloc: Global, desks: Vec<Desk>) -> Result<(Board, Place), OutOfMemory>
    requires new { AreNew desks.items }
    requires least { 1 ≤ length desks.items }
    ensures board { IfOk result (λ made. made.0.founded ≡ desks.items) }
    ensures table { IfOk result (λ made. made.1.table_id ≡ made.0.table) }
    ensures seat { IfOk result (λ made. made.1.me ≡ (first_view desks.items, [])) }
{
    let count = desks.len();
    let founded = Snapshot::of(&desks);
    let journals = Vec::with_capacity(alloc, count)?;
    let slots = in_slots(alloc, desks)?;
    let words = zeros(count + count);
    let made = Table::<Option<Desk>, View, Snapshot<Vec<Desk>>, Order, Global>::new(
        alloc,
        words.as_slice(),
        slots,
        &founded,
    );
    match made {
        Ok((table, first)) => Ok((
            Board {
                table,
                desks: count,
                journals,
            },
            first,
        )),
        Err(_refused) => Err(OutOfMemory),
    }
}

/// So many words, which are 0.
fn zeros(count: usize) -> ArrayVec<u64, 32>
    requires { count ≤ 32 }
    ensures { result.items ≡ replicate count 0 }
{
    let mut words = ArrayVec::new();
    for _ in 0..count {
        words.push(0);
    }
    words
}

/// Each desk in a slot.
fn in_slots(alloc: Global, desks: Vec<Desk>) -> Result<Vec<Option<Desk>>, OutOfMemory>
    ensures { IfOk result (λ slots. slots.items ≡ map Some desks.items) }
{
    let mut slots = Vec::with_capacity(alloc, desks.len())?;
    for desk in desks {
        slots.push_reserved(Some(desk));
    }
    Ok(slots)
}

/// A pass for each session. The first seat gives the others their numbers.
fn give_passes(
    board: &Board,
    mut first: Place,
    mut passes: Vec<Pass>,
) -> Result<Vec<Pass>, OutOfMemory>
    requires new { AreNew board.now.founded }
    requires table { first.table_id ≡ board.now.table }
    requires seat { first.me ≡ (first_view board.now.founded, []) }
    requires none { passes.items ≡ [] }
    requires room { length board.now.founded ≤ vec_capacity passes }
    ensures { IfOk result (λ passes. passes.items ≡ new_passes board.now) }
{
    for session in 2..board.desks as u32 + 1 {
        let seat = board.table.shared.split_seat::<Born>(&mut first);
        passes.push_reserved(Pass::of(session, seat));
    }
    passes.insert(0, Pass::of(1, first))?;
    Ok(passes)
}
