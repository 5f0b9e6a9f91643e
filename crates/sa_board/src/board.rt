ghost use Rattle.std.specs.Prelude.{◌≡◌, ◌<◌, [], ◌∷◌, Some, None, MatchBool, length};
ghost use Rattle.sa_board.specs.Steps.{IsIdle, Took, HasDesk, Raises, raised, Returns, released};

use crate::plays::{Left, Order, Raise, Release, Take};
use crate::view::View;
use atomic_table::{Seat, Table};
use sa_desk::{Desk, Entries};
use std::alloc::Global;
use std::marker::{Brand, Model};
use std::snapshot::Snapshot;
use std::sync::Wait;
use std::thread::yield_now;

/// A session's seat at the table.
pub(crate) type Place = Seat<Option<Desk>, View>;

/// The desks of all sessions, each under a lock of its own. Contracts see with which desks it was
/// founded.
#[derive(Drop)]
pub struct Board {
    pub(crate) table: Table<Option<Desk>, View, Snapshot<Vec<Desk>>, Order, Global>,
    /// How many desks there are.
    pub(crate) desks: usize,
    /// Room for the journals.
    pub(crate) journals: Vec<Entries>,
}

impl Model for Board {
    ghost use Rattle.sa_board.specs.Board.{BoardState};

    ghost Value = { BoardState };

    ghost use Rattle.std.specs.Coded.{codes};
    ghost use Rattle.sa_cond.specs.contracts.cond.Cond as cond;
    ghost use Rattle.sa_cond.specs.contracts.expr.Expr as expr;

    ghost coded = { Prim.hlevel (codes, cond.the_row.coded, expr.the_row.coded) };

    ghost use Rattle.sa_board.specs.inner.Board.{board_of, IsBoard};

    ghost view = { board_of };

    ghost invariant = { IsBoard };
}

/// Tries once to take the desk at an index, and says whether it did.
fn take(board: &Board, seat: &mut Place, index: usize) -> bool
    requires seat { seat.old.table_id ≡ board.now.table }
    requires idle { IsIdle seat.old.me }
    requires there { index < length board.now.founded }
    ensures table { (seat.new.table_id ≡ seat.old.table_id) × (seat.new.id ≡ seat.old.id) }
    ensures won { MatchBool result (Took index seat.old.me seat.new.me)
        (seat.new.me ≡ seat.old.me) }
{
    board
        .table
        .shared
        .compare_exchange::<Take>(seat, index, 0, 1)
        == 0
}

/// Takes the desk at an index out of its slot.
pub(crate) fn bring_out(board: &Board, seat: &mut Place, index: usize) -> Desk
    requires seat { seat.old.table_id ≡ board.now.table }
    requires desk { HasDesk index seat.old.me }
    ensures table { (seat.new.table_id ≡ seat.old.table_id) × (seat.new.id ≡ seat.old.id) }
    ensures desk { seat.old.me.1 ≡ (index, Some result) ∷ [] }
    ensures out { seat.new.me ≡ (seat.old.me.0, (index, None) ∷ []) }
{
    board.table.shared.exchange(seat, index, None).unwrap()
}

/// Counts the new entries of the desk at an index, which is out of its slot.
fn raise_by<C: Left>(board: &Board, seat: &mut Place, index: usize, _desk: &Desk, count: u64)
    requires seat { seat.old.table_id ≡ board.now.table }
    requires there { index < length board.now.founded }
    requires raises { Raises index seat.old.me _desk.now count }
    requires left { _desk.now ≡ C.left }
    ensures table { (seat.new.table_id ≡ seat.old.table_id) × (seat.new.id ≡ seat.old.id) }
    ensures raised { seat.new.me ≡ (raised index _desk.now seat.old.me.0, seat.old.me.1) }
{
    board
        .table
        .shared
        .fetch_add::<Raise<C>>(seat, board.desks + index, count);
}

/// Counts the new entries of the desk at an index, which is out of its slot.
pub(crate) fn raise(board: &Board, seat: &mut Place, index: usize, desk: &Desk, count: u64)
    requires seat { seat.old.table_id ≡ board.now.table }
    requires there { index < length board.now.founded }
    requires raises { Raises index seat.old.me desk.now count }
    ensures table { (seat.new.table_id ≡ seat.old.table_id) × (seat.new.id ≡ seat.old.id) }
    ensures raised { seat.new.me ≡ (raised index desk.now seat.old.me.0, seat.old.me.1) }
{
    raise_by::<Brand>(board, seat, index, desk, count);
}

/// Brings the desk at an index home.
pub(crate) fn bring_home(board: &Board, seat: &mut Place, index: usize, desk: Desk)
    requires seat { seat.old.table_id ≡ board.now.table }
    requires away { seat.old.me.1 ≡ (index, None) ∷ [] }
    ensures table { (seat.new.table_id ≡ seat.old.table_id) × (seat.new.id ≡ seat.old.id) }
    ensures home { seat.new.me ≡ (seat.old.me.0, (index, Some desk) ∷ []) }
{
    board.table.shared.exchange(seat, index, Some(desk));
}

/// Lets the desk at an index go.
pub(crate) fn release(board: &Board, seat: &mut Place, index: usize)
    requires seat { seat.old.table_id ≡ board.now.table }
    requires there { index < length board.now.founded }
    requires returns { Returns index seat.old.me }
    ensures table { (seat.new.table_id ≡ seat.old.table_id) × (seat.new.id ≡ seat.old.id) }
    ensures idle { seat.new.me ≡ (released seat.old.me.0, []) }
{
    board.table.shared.swap::<Release>(seat, index, 0);
}

/// Takes the desk at an index, and waits for as long as another seat has it.
pub(crate) fn acquire<R: Wait>(rt: &R, board: &Board, seat: &mut Place, index: usize)
    requires seat { seat.old.table_id ≡ board.now.table }
    requires idle { IsIdle seat.old.me }
    requires there { index < length board.now.founded }
    ensures table { (seat.new.table_id ≡ seat.old.table_id) × (seat.new.id ≡ seat.old.id) }
    ensures took { Took index seat.old.me seat.new.me }
{
    'waiting: for _ in rt.forever() {
        if take(board, seat, index) {
            return;
        }
        yield_now();
    }
    unreachable!()
}
