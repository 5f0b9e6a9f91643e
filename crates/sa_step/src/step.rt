ghost use Rattle.std.specs.Prelude.{◌≡◌, ℕ, ◌<◌, ◌≤◌, ◌||◌, false, length, All, IfOk, IsTrue};
ghost use Rattle.std.specs.Arc.{arc_value};
ghost use Rattle.sa_desk.specs.Legal.{IsLegal};
ghost use Rattle.sa_worker.specs.View.{done};
ghost use Rattle.sa_step.specs.Sessions.{MayStart, AreSound, AreRunning, view_in};
ghost use Rattle.sa_step.specs.Remaining.{remaining, AreDone, IsSession};
ghost use Rattle.sa_step.specs.Schedule.{InSchedule, slot};
ghost use Rattle.sa_step.specs.Course.{InCourse};
ghost use Rattle.sa_step.specs.Turns.{GoesBy};
ghost use Rattle.sa_step.specs.inner.Timely.{IsOnTime, IsInRounds};

use crate::sessions::Sessions;
use sa_desk::Journals;
use sa_plan::Preparer;
use sa_table::Tables;
use sa_value::{OutOfMemory, Texts};
use std::alloc::Global;
use std::sync::Arc;

/// The journals of all sessions of a script. The sessions that the schedule names take a turn each, in its
/// order; then come rounds, in which each takes one by its number, until all are done. A session that is
/// done is passed over.
///
/// `statements` has the texts of each session's statements. A turn makes at most `quantum` row steps, and a
/// request or a wait lasts `turns` polls or looks. A schedule names sessions from 1 on.
pub fn step_sessions<P: Preparer>(
    alloc: Global,
    prepare: &P,
    tables: Arc<Tables>,
    statements: Vec<Texts>,
    quantum: u32,
    turns: u64,
    schedule: &[u32],
) -> Result<Journals, OutOfMemory>
    requires start { MayStart (record {
      tables = arc_value tables;
      texts = statements.items;
      quantum = quantum;
      turns = turns;
    }) }
    requires sound { AreSound (P.answers prepare.now) (record {
      tables = arc_value tables;
      texts = statements.items;
      quantum = quantum;
      turns = turns;
    }) }
    requires schedule { All (IsSession (length statements.items)) schedule.now }
    ensures legal { IfOk result (IsLegal (P.answers prepare.now) (record {
      tables = arc_value tables;
      texts = statements.items;
      quantum = quantum;
      turns = turns;
    })) }
    ensures in_schedule { IfOk result (InSchedule (record {
      tables = arc_value tables;
      texts = statements.items;
      quantum = quantum;
      turns = turns;
    }) schedule.now) }
    ensures in_course { IfOk result (InCourse (P.answers prepare.now) (record {
      tables = arc_value tables;
      texts = statements.items;
      quantum = quantum;
      turns = turns;
    }) schedule.now) }
{
    let mut sessions = Sessions::new(alloc, prepare, tables, statements, quantum, turns)?;
    take_schedule(&mut sessions, prepare, schedule);
    take_rounds(&mut sessions, prepare);
    Ok(sessions.finish())
}

/// A turn of each session that the schedule names, where it isn't done.
fn take_schedule<P: Preparer>(sessions: &mut Sessions, prepare: &P, schedule: &[u32])
    requires there { All (IsSession (length sessions.old.views)) schedule.now }
    requires running { AreRunning (P.answers prepare.now) sessions.old }
    ensures running { AreRunning (P.answers prepare.now) sessions.new }
    ensures script { sessions.new.script ≡ sessions.old.script }
    ensures timed { (slots : ℕ → ℕ → ℕ) →
        IsOnTime (P.answers prepare.now) slots
        (slot (length sessions.old.views) schedule.now) 0 sessions.old →
        IsInRounds (P.answers prepare.now) slots sessions.new }
{
    for session in schedule {
        let _taken = take_turn(sessions, prepare, *session);
    }
}

/// Rounds, until all sessions are done.
fn take_rounds<P: Preparer>(sessions: &mut Sessions, prepare: &P)
    requires running { AreRunning (P.answers prepare.now) sessions.old }
    ensures running { AreRunning (P.answers prepare.now) sessions.new }
    ensures script { sessions.new.script ≡ sessions.old.script }
    ensures finished { AreDone sessions.new.views }
    ensures timed { (slots : ℕ → ℕ → ℕ) → IsInRounds (P.answers prepare.now) slots sessions.old
        → IsInRounds (P.answers prepare.now) slots sessions.new }
{
    while take_round(sessions, prepare) {}
}

/// A turn of each session that isn't done, by number: whether any took one.
fn take_round<P: Preparer>(sessions: &mut Sessions, prepare: &P) -> bool
    requires running { AreRunning (P.answers prepare.now) sessions.old }
    ensures running { AreRunning (P.answers prepare.now) sessions.new }
    ensures script { sessions.new.script ≡ sessions.old.script }
    ensures some { IsTrue result → remaining sessions.new.views < remaining sessions.old.views }
    ensures none { result ≡ false → AreDone sessions.new.views }
    ensures timed { (slots : ℕ → ℕ → ℕ) → IsInRounds (P.answers prepare.now) slots sessions.old
        → IsInRounds (P.answers prepare.now) slots sessions.new }
{
    let mut any = false;
    for index in 0..sessions.len() {
        let taken = take_turn(sessions, prepare, index as u32 + 1);
        any = either(any, taken);
    }
    any
}

/// A turn of a session, unless it is done: whether it took one.
fn take_turn<P: Preparer>(sessions: &mut Sessions, prepare: &P, session: u32) -> bool
    requires least { 1 ≤ session }
    requires most { session ≤ length sessions.old.views }
    requires running { AreRunning (P.answers prepare.now) sessions.old }
    ensures running { AreRunning (P.answers prepare.now) sessions.new }
    ensures script { sessions.new.script ≡ sessions.old.script }
    ensures some { IsTrue result → remaining sessions.new.views < remaining sessions.old.views }
    ensures none { result ≡ false
        → (sessions.new ≡ sessions.old) × ((view_in sessions.old.views session).stage ≡ done) }
    ensures by { GoesBy (P.answers prepare.now) sessions.old session sessions.new }
{
    if sessions.is_done(session) {
        return false;
    }
    let _turned = sessions.turn(prepare, session);
    true
}

/// Whether one of two is so.
fn either(one: bool, other: bool) -> bool
    ensures { result ≡ one || other }
{
    one || other
}
