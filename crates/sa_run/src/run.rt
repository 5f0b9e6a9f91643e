ghost use Rattle.std.specs.Prelude.{◌≡◌, ℕ, ◌<◌, ◌≤◌, length, slice_index_or, map, All, IsTrue, IfOk};
ghost use Rattle.std.specs.Arc.{arc_value};
ghost use Rattle.sa_desk.specs.Legal.{IsLegal};
ghost use Rattle.sa_board.specs.Board.{new_passes};
ghost use Rattle.sa_step.specs.Sessions.{MayStart, AreSound};
ghost use Rattle.sa_run.specs.inner.Members.{MayRun, HasRun, members_of};

use crate::crossing::{members_send, scripts_share, statements_send};
use crate::member::{Member, run_member};
use crate::script::Script;
use sa_board::{Board, Pass, boards_share, passes_send};
use sa_desk::Journals;
use sa_plan::Preparer;
use sa_source::Pause;
use sa_step::new_desks;
use sa_table::Tables;
use sa_value::{OutOfMemory, Texts};
use std::alloc::Global;
use std::collections::VecDeque;
use std::sync::{Arc, Wait};
use std::thread::{Threads, for_each_mut};

/// The journals of all sessions of a script. Each session takes its turns on a thread of its own,
/// where one can be made, and pauses after a turn whose call had to wait.
///
/// `statements` has the texts of each session's statements. A turn makes at most `quantum` row
/// steps, and a request or a wait lasts `turns` polls or looks.
pub fn run_sessions<R: Threads + Wait + Sync, P: Preparer + Sync, Q: Pause + Sync>(
    rt: &R,
    alloc: Global,
    prepare: &P,
    pause: &Q,
    tables: Arc<Tables>,
    statements: Vec<Texts>,
    quantum: u32,
    turns: u64,
) -> Result<Journals, OutOfMemory>
    requires start { MayStart (record {
      tables = arc_value tables;
      texts = statements.items;
      quantum = quantum;
      turns = turns;
    }) }
    requires sound { AreSound (P.answers prepare.now) (record {
      tables = arc_value tables;
      texts = statements.items;
      quantum = quantum;
      turns = turns;
    }) }
    ensures legal { IfOk result (IsLegal (P.answers prepare.now) (record {
      tables = arc_value tables;
      texts = statements.items;
      quantum = quantum;
      turns = turns;
    })) }
{
    if statements.is_empty() {
        return Ok(Journals::from_vec(Vec::new(alloc)));
    }
    let desks = new_desks(alloc, &statements, quantum, turns)?;
    let script = Script::new(alloc, tables, &statements, quantum, turns);
    let (board, passes) = Board::new(alloc, desks)?;
    let mut members = new_members(alloc, &board, statements, passes)?;
    run_members(rt, prepare, pause, &script, &board, &mut members);
    let passes = ended_passes(alloc, members)?;
    Ok(board.finish(passes))
}

/// A member for each session, with its statements and its pass.
fn new_members(
    alloc: Global,
    board: &Board,
    statements: Vec<Texts>,
    passes: Vec<Pass>,
) -> Result<Vec<Member>, OutOfMemory>
    requires few { length statements.items ≤ 16 }
    requires founded { length board.now.founded ≡ length statements.items }
    requires passes { passes.items ≡ new_passes board.now }
    ensures { IfOk result (λ members. members.items ≡ members_of board.now statements.items) }
{
    // the board is for contracts alone
    let _ = board;
    let mut left = VecDeque::from_vec(statements);
    let mut members = Vec::with_capacity(alloc, passes.len())?;
    for pass in passes {
        let Some(texts) = left.pop_front() else {
            unreachable!()
        };
        let session = members.len() as u32 + 1;
        members.push(Member {
            session,
            pass,
            statements: Some(texts),
            ended: false,
        })?;
    }
    Ok(members)
}

/// Runs each member, on a thread of its own where one can be made.
fn run_members<R: Threads + Wait + Sync, P: Preparer + Sync, Q: Pause + Sync>(
    rt: &R,
    prepare: &P,
    pause: &Q,
    script: &Script,
    board: &Board,
    members: &mut [Member],
)
    requires some { 0 < length members.old }
    requires may { All (MayRun (P.answers prepare.now) script.now board.now) members.old }
    ensures same { length members.new ≡ length members.old }
    ensures each { (place : ℕ) (none : _) → place < length members.old →
        HasRun (P.answers prepare.now) script.now board.now
        (slice_index_or members.old place none) (slice_index_or members.new place none) }
{
    // what may cross threads
    passes_send();
    statements_send();
    members_send();
    scripts_share();
    boards_share();
    let count = members.len();
    let run = |_place: usize, member: &mut Member|
        requires { MayRun (P.answers prepare.now) script.now board.now member.now }
        ensures { HasRun (P.answers prepare.entry.now) script.entry.now board.entry.now
            member.entry.now member.exit.now }
    { run_member(rt, prepare, pause, script, board, member) };
    for_each_mut(rt, members, count, &run);
}

/// The passes of the members, where all have closed.
fn ended_passes(alloc: Global, members: Vec<Member>) -> Result<Vec<Pass>, OutOfMemory>
    ensures passes { IfOk result (λ passes.
        passes.items ≡ map (λ member. member.pass) members.items) }
    ensures ended { IfOk result (λ _. All (λ member. IsTrue member.ended) members.items) }
{
    let mut passes = Vec::with_capacity(alloc, members.len())?;
    for member in members {
        let Member { pass, ended, .. } = member;
        if !ended {
            return Err(OutOfMemory);
        }
        passes.push(pass)?;
    }
    Ok(passes)
}
