//! What the directives of a script say.

ghost use Rattle.std.specs.Prelude.{◌≡◌, ◌+◌, ◌<◌, ◌≤◌, ◌^◌, length, drop, Some, None, true, false, OnOk, IfOk, IfErr};
ghost use Rattle.std.specs.Str.{IsCharBoundary};
ghost use Rattle.sa_script.specs.Direct as spec;
ghost use Rattle.sa_script.specs.Direct.{Directs, CantDirect, HasGoodNumbers, HasBadNumber, numbers_in, is_from_to};
ghost use Rattle.sa_script.specs.Fault.{fault_at};
ghost use Rattle.sa_script.specs.declared.fault.ScriptKind.{ScriptKind as Kind};
ghost use Rattle.sa_script.specs.Piece.{place_behind};
ghost use Rattle.sa_script.specs.inner.Tells.{Tells};

use crate::fault::{ScriptFault, ScriptKind};
use crate::load::load;
use crate::piece::Piece;
use crate::said::{Said, Stage};
use crate::script::{Schedule, SessionScript};
use sa_ast::{Directive, NumberTree, NumberTrees};
use std::alloc::Global;

/// The most sessions of a script.
const MOST_SESSIONS: u128 = 16;

/// The most numbers of a SCHEDULE.
const MOST_NUMBERS: usize = 65_536;

/// Does what a directive says. Answers how many bytes stand between its `;` and the next piece.
pub(crate) fn direct(
    alloc: Global,
    said: &mut Said,
    script: &str,
    piece: &Piece<'_>,
    tree: Directive,
) -> Result<usize, ScriptFault>
    requires size { length script.now < 2 ^ 63 }
    requires within { place_behind piece.now ≤ length script.now }
    requires cut { IsCharBoundary script.now (place_behind piece.now) }
    requires few { length said.old.sessions ≤ 16 }
    ensures directs { let behind = drop (place_behind piece.now) script.now in
        IfOk result (Directs said.old piece.now tree behind said.new) }
    ensures cut { IfOk result
        (λ skipped. IsCharBoundary script.now (place_behind piece.now + skipped)) }
    ensures fault { let behind = drop (place_behind piece.now) script.now in
        IfErr result (Tells (CantDirect said.old piece.now tree behind)) }
{
    match tree {
        Directive::Quantum(number) => said.quantum = number_within(&number, 64)? as u32,
        Directive::Turns(number) => said.turns = number_within(&number, 1_000_000_000)?,
        Directive::Load { table, bytes } => {
            return load(alloc, &mut said.tables, script, piece, &table, &bytes);
        }
        Directive::Session(number) => {
            next_session(said.sessions.len(), &number)?;
            said.sessions.push(SessionScript::new(alloc))?;
            said.stage = Stage::InSession;
        }
        Directive::Schedule(numbers) => {
            said.schedule = schedule(alloc, said.sessions.len(), &numbers)?;
            said.stage = Stage::Scheduled;
        }
    }
    Ok(0)
}

/// A number that is 1 at least, and at most so large.
fn number_within(tree: &NumberTree, most: u64) -> Result<u64, ScriptFault>
    ensures within { IfOk result (λ number. is_from_to 1 most tree.now.number ≡ true) }
    ensures number { IfOk result (λ number. number ≡ tree.now.number) }
    ensures fault { IfErr result (Tells (λ fault. (is_from_to 1 most tree.now.number ≡ false)
        × (fault ≡ fault_at ScriptKind.BadNumber tree.now.place))) }
{
    let number = tree.number;
    if 1 <= number && number <= u128::from(most) {
        Ok(number as u64)
    } else {
        Err(ScriptFault::at(ScriptKind::BadNumber, tree.place))
    }
}

/// That a session's number is the one after so many sessions.
fn next_session(sessions: usize, tree: &NumberTree) -> Result<(), ScriptFault>
    requires { sessions ≤ 16 }
    ensures next { OnOk result (spec.session_fault sessions tree.now ≡ None) }
    ensures fault { IfErr result
        (Tells (λ fault. (kind : Kind) × (spec.session_fault sessions tree.now ≡ Some kind)
        × (fault ≡ fault_at kind tree.now.place))) }
{
    if tree.number != sessions as u128 + 1 {
        return Err(ScriptFault::at(ScriptKind::SessionOrder, tree.place));
    }
    if tree.number > MOST_SESSIONS {
        return Err(ScriptFault::at(ScriptKind::TooManySessions, tree.place));
    }
    Ok(())
}

/// The numbers of a SCHEDULE, each of which is that of a session.
fn schedule(alloc: Global, sessions: usize, numbers: &NumberTrees) -> Result<Schedule, ScriptFault>
    requires { sessions ≤ 16 }
    ensures good { OnOk result (HasGoodNumbers sessions numbers.now) }
    ensures numbers { IfOk result (λ schedule. schedule ≡ numbers_in numbers.now) }
    ensures fault { IfErr result (Tells (HasBadNumber sessions numbers.now)) }
{
    let mut schedule = Schedule::new(alloc);
    for (index, tree) in numbers.as_slice().iter().enumerate() {
        let number = session_number(sessions, index, tree)?;
        schedule.push(number)?;
    }
    Ok(schedule)
}

/// A number of a SCHEDULE, which has so many before it.
fn session_number(sessions: usize, before: usize, tree: &NumberTree) -> Result<u32, ScriptFault>
    requires { sessions ≤ 16 }
    ensures good { OnOk result (spec.schedule_fault sessions before tree.now ≡ None) }
    ensures number { IfOk result (λ number. number ≡ tree.now.number) }
    ensures fault { IfErr result
        (Tells (λ fault. (kind : Kind) × (spec.schedule_fault sessions before tree.now ≡ Some kind)
        × (fault ≡ fault_at kind tree.now.place))) }
{
    let number = tree.number;
    if number < 1 || number > sessions as u128 {
        return Err(ScriptFault::at(ScriptKind::UnknownSession, tree.place));
    }
    if before >= MOST_NUMBERS {
        return Err(ScriptFault::at(ScriptKind::ScheduleTooLong, tree.place));
    }
    Ok(number as u32)
}
