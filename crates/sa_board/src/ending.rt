ghost use Rattle.std.specs.Prelude.{◌≡◌, [], map};
ghost use Rattle.sa_board.specs.Board.{AreAll};
ghost use Rattle.sa_board.specs.History.{AreHistories};
ghost use Rattle.sa_board.specs.Pass.{known_of};

use crate::board::{Board, Place};
use crate::pass::Pass;
use crate::plays::Ended;
use sa_desk::Journals;

impl Board {
    /// The history of each desk, in the order of their numbers, once all sessions have ended. It
    /// takes no memory.
    pub fn finish(self, passes: Vec<Pass>) -> Journals
        requires { AreAll self passes.items }
        ensures { AreHistories self.founded passes.items result }
    {
        let seat = join_all(&self, passes);
        let Board {
            table,
            desks,
            mut journals,
        } = self;
        let mut closed = table.close_with(seat);
        for index in 0..desks {
            let Some(desk) = closed.take(index) else {
                unreachable!()
            };
            journals.push_reserved(desk.finish());
        }
        closed.free();
        Journals::from_vec(journals)
    }
}

/// Ends all sessions in the seat of the first.
fn join_all(board: &Board, mut passes: Vec<Pass>) -> Place
    requires { AreAll board.now passes.items }
    ensures table { result.table_id ≡ board.now.table }
    ensures away { result.me.1 ≡ [] }
    ensures out { result.me.0.out ≡ 0 }
    ensures known { result.me.0.known ≡ map known_of passes.items }
{
    let shared = &board.table.shared;
    let mut seat = passes.remove(0).into_seat();
    for pass in passes {
        shared.join_seat::<Ended>(&mut seat, pass.into_seat());
    }
    seat
}
