ghost use Rattle.std.specs.Prelude.{◌≡◌, true, [], option_map};
ghost use Rattle.sa_desk.specs.declared.entry.Event.TheVariants.{Begin};
ghost use Rattle.sa_desk.specs.Contents.{phase, state};
ghost use Rattle.sa_desk.specs.Serving.{served_entries, is_killed};
ghost use Rattle.sa_desk.specs.World.{World, next_stamp, IsCall};
ghost use Rattle.sa_desk.specs.call.Ask.{MayAsk, ask_answer, ask_entries, after_ask};
ghost use Rattle.sa_desk.specs.call.Begin.{MayBegin, begin_answer, begin_entries, after_begin};
ghost use Rattle.sa_desk.specs.call.Close.{MayClose, close_entries, after_close};
ghost use Rattle.sa_desk.specs.call.End.{MayEnd, end_answer, end_entries, after_end, run_of, outcome_of};
ghost use Rattle.sa_desk.specs.call.Kill.{MayKill, kill_answer, kill_entries, after_kill};
ghost use Rattle.sa_desk.specs.call.Look.{MayLook, looked, look_entries, after_look};
ghost use Rattle.sa_desk.specs.call.LookOwn.{MayLookOwn};
ghost use Rattle.sa_desk.specs.call.Point.{MayPoint, point_answer, after_point};
ghost use Rattle.sa_desk.specs.call.Poll.{MayPoll, polled, poll_entries, after_poll};
ghost use Rattle.sa_desk.specs.call.Withdraw.{MayWithdraw, withdrawn, withdraw_entries, after_withdraw};

use crate::answer::{Asked, Begun, Ended, Killed, Looked, Polled, Seen, Withdrawn};
use crate::outcome::Finish;
use crate::stamp::Caller;
use sa_ast::{AskKind, KillKind};
use sa_meaning::Running;
use sa_plan::SharedPlan;
use sa_table::SharedTables;
use sa_value::Text;

/// A number of desks, which sessions call by their numbers. Each call is one call of the desk that it
/// names, and none takes memory.
///
/// A session knows the entries that it has made, what it has seen of each desk and what it has counted
/// there. A call adds the caller's own entries alone, and changes the caller's own counts alone.
pub trait Desks {
    /// What is known of the desks.
    ghost world: { Self → World };

    /// What no call changes: which object these desks are.
    ghost keeps: { Self → Self → Type 0 };

    /// Begins a statement, as `Desk::begin`.
    fn begin(
        &mut self,
        desk: u32,
        me: Caller,
        statement: u32,
        text: Text,
        version: u64,
        plan: Option<SharedPlan>,
        tables: Option<SharedTables>,
    ) -> Begun
        requires allowed { (world self.old).may_call desk me.actor ≡ true }
        requires begin { let old = world self.old in
            MayBegin (old.contents desk) (next_stamp old me)
            (Begin statement text version plan tables) statement version plan tables }
        ensures answer { result ≡ begin_answer (state ((world self.old).contents desk)).doomed }
        ensures same { keeps self.old self.new }
        ensures call { let old = world self.old in
            let at = old.contents desk in
            let stamp = next_stamp old me in
            let event = Begin statement text version plan tables in
            IsCall old (world self.new) desk me.actor (begin_entries at stamp event statement)
            (after_begin at stamp event statement) };

    /// Publishes how far a run has come and serves who asked, as `Desk::point`.
    fn point<R: Running>(&mut self, desk: u32, me: Caller, run: &mut R) -> Seen
        requires allowed { (world self.old).may_call desk me.actor ≡ true }
        requires point { let old = world self.old in
            MayPoint (old.contents desk) (next_stamp old me) (R.progress run.old) }
        ensures answer { result ≡ point_answer (is_killed (phase ((world self.old).contents desk))) }
        ensures run { R.progress run.new ≡ record (R.progress run.old) { since_looked = 0 } }
        ensures same { keeps self.old self.new }
        ensures call { let old = world self.old in
            let at = old.contents desk in
            let stamp = next_stamp old me in
            IsCall old (world self.new) desk me.actor
            (served_entries at stamp (R.progress run.old))
            (after_point at stamp (R.progress run.old)) };

    /// Looks whether a kill stands for a statement without a plan, as `Desk::look_own`.
    fn look_own(&mut self, desk: u32, me: Caller) -> Seen
        requires allowed { (world self.old).may_call desk me.actor ≡ true }
        requires look_own { let old = world self.old in
            MayLookOwn (old.contents desk) (next_stamp old me) }
        ensures answer { result ≡ point_answer (is_killed (phase ((world self.old).contents desk))) }
        ensures same { keeps self.old self.new }
        ensures call { let old = world self.old in
            IsCall old (world self.new) desk me.actor [] (old.contents desk) };

    /// Ends a statement, as `Desk::end`.
    fn end<R: Running>(&mut self, desk: u32, me: Caller, statement: u32, finish: Finish<R>) -> Ended
        requires allowed { (world self.old).may_call desk me.actor ≡ true }
        requires end { let old = world self.old in
            MayEnd R.progress (old.contents desk) (next_stamp old me) statement finish }
        ensures answer { result ≡ end_answer (is_killed (phase ((world self.old).contents desk))) }
        ensures same { keeps self.old self.new }
        ensures call { let old = world self.old in
            let at = old.contents desk in
            let stamp = next_stamp old me in
            let run = run_of R.progress finish in
            let outcome = outcome_of R.progress finish in
            IsCall old (world self.new) desk me.actor (end_entries at stamp statement run outcome)
            (after_end at stamp statement run outcome) };

    /// Asks for a plan or its counters, as `Desk::ask`.
    fn ask(&mut self, desk: u32, me: Caller, statement: u32, kind: AskKind, budget: u64) -> Asked
        requires allowed { (world self.old).may_call desk me.actor ≡ true }
        requires ask { let old = world self.old in
            MayAsk (old.contents desk) (next_stamp old me) statement kind budget }
        ensures answer { result ≡ ask_answer (phase ((world self.old).contents desk)) }
        ensures same { keeps self.old self.new }
        ensures call { let old = world self.old in
            let at = old.contents desk in
            let stamp = next_stamp old me in
            IsCall old (world self.new) desk me.actor (ask_entries at stamp statement kind budget)
            (after_ask at stamp statement kind budget) };

    /// Looks whether a request was served, as `Desk::poll`.
    fn poll(&mut self, desk: u32, me: Caller, statement: u32) -> Polled
        requires allowed { (world self.old).may_call desk me.actor ≡ true }
        requires poll { let old = world self.old in
            MayPoll (old.contents desk) (next_stamp old me) statement }
        ensures answer { let old = world self.old in
            result ≡ polled (old.contents desk) (next_stamp old me) statement }
        ensures same { keeps self.old self.new }
        ensures call { let old = world self.old in
            let at = old.contents desk in
            let stamp = next_stamp old me in
            IsCall old (world self.new) desk me.actor (poll_entries at stamp statement)
            (after_poll at stamp statement) };

    /// Takes a request back, as `Desk::withdraw`.
    fn withdraw(&mut self, desk: u32, me: Caller, statement: u32) -> Withdrawn
        requires allowed { (world self.old).may_call desk me.actor ≡ true }
        requires withdraw { let old = world self.old in
            MayWithdraw (old.contents desk) (next_stamp old me) statement }
        ensures answer { let old = world self.old in
            result ≡ withdrawn (old.contents desk) (next_stamp old me) statement }
        ensures same { keeps self.old self.new }
        ensures call { let old = world self.old in
            let at = old.contents desk in
            let stamp = next_stamp old me in
            IsCall old (world self.new) desk me.actor (withdraw_entries at stamp statement)
            (after_withdraw at stamp statement) };

    /// Kills what another session runs, as `Desk::kill`.
    fn kill(&mut self, desk: u32, me: Caller, statement: u32, kind: KillKind) -> Killed
        requires allowed { (world self.old).may_call desk me.actor ≡ true }
        requires kill { let old = world self.old in
            MayKill (old.contents desk) (next_stamp old me) statement kind }
        ensures answer { result ≡ kill_answer (phase ((world self.old).contents desk)) }
        ensures same { keeps self.old self.new }
        ensures call { let old = world self.old in
            let at = old.contents desk in
            let stamp = next_stamp old me in
            IsCall old (world self.new) desk me.actor (kill_entries at stamp statement kind)
            (after_kill at stamp statement kind) };

    /// Waits until so many steps are published, as `Desk::look`.
    fn look(&mut self, desk: u32, me: Caller, statement: u32, at: u64, budget: u64) -> Looked
        requires allowed { (world self.old).may_call desk me.actor ≡ true }
        requires look { let old = world self.old in
            MayLook (old.contents desk) (next_stamp old me) statement at budget }
        ensures answer { let old = world self.old in
            result ≡ looked (old.contents desk) (next_stamp old me) statement at }
        ensures same { keeps self.old self.new }
        ensures call { let old = world self.old in
            let found = old.contents desk in
            let stamp = next_stamp old me in
            IsCall old (world self.new) desk me.actor (look_entries found stamp statement at)
            (after_look found stamp statement at) };

    /// Ends the session, as `Desk::close`.
    fn close(&mut self, desk: u32, me: Caller)
        requires allowed { (world self.old).may_call desk me.actor ≡ true }
        requires close { let old = world self.old in
            MayClose (old.contents desk) (next_stamp old me) }
        ensures same { keeps self.old self.new }
        ensures call { let old = world self.old in
            let at = old.contents desk in
            let stamp = next_stamp old me in
            IsCall old (world self.new) desk me.actor (close_entries at stamp)
            (after_close at stamp) };
}
