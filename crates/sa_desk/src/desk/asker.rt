ghost use Rattle.std.specs.Prelude.{◌≡◌};
ghost use Rattle.sa_desk.specs.Contents.{IsSound, phase};
ghost use Rattle.sa_desk.specs.call.Ask.{MayAsk, ask_answer, after_ask};
ghost use Rattle.sa_desk.specs.call.Kill.{MayKill, kill_answer, after_kill};
ghost use Rattle.sa_desk.specs.call.Look.{MayLook, looked, after_look};
ghost use Rattle.sa_desk.specs.call.Poll.{MayPoll, polled, after_poll};
ghost use Rattle.sa_desk.specs.call.Withdraw.{MayWithdraw, withdrawn, after_withdraw};

use crate::answer::{Asked, Killed, Looked, Polled, Withdrawn};
use crate::desk::Desk;
use crate::desk::parts::{
    answer_in, ask_event, doomed_by, is_over, killed_in, push_entry, put_last,
};
use crate::desk::seats::{polls_of, set_polls, take_out, take_reply};
use crate::desk::waits::{look_event, look_in, looks_of, set_wait, wait_after};
use crate::entry::{Event, RefusedWhy};
use crate::request::Request;
use crate::stamp::Stamp;
use sa_ast::{AskKind, KillKind};

/// What any session may call.
impl Desk {
    /// Asks for the plan or the counters of the statement that is on. The request waits for `budget`
    /// polls.
    pub fn ask(&mut self, stamp: Stamp, statement: u32, kind: AskKind, budget: u64) -> Asked
        requires { MayAsk self.old stamp statement kind budget }
        ensures answer { result ≡ ask_answer (phase self.old) }
        ensures desk { self.new ≡ after_ask self.old stamp statement kind budget }
        ensures sound { IsSound self.new }
    {
        let asked = answer_in(self.phase);
        let at = self.published;
        let request = Request {
            asker: stamp.actor,
            request: statement,
            at,
        };
        put_last(asked, request, &mut self.queue);
        let event = ask_event(asked, statement, kind, at, budget);
        push_entry(&mut self.journal, self.number, stamp, event);
        set_polls(&mut self.polls, stamp.actor, 0);
        asked
    }

    /// Looks whether the caller's request was served, and takes the answer. The last poll of its budget
    /// takes the request out.
    pub fn poll(&mut self, stamp: Stamp, statement: u32) -> Polled
        requires { MayPoll self.old stamp statement }
        ensures answer { result ≡ polled self.old stamp statement }
        ensures desk { self.new ≡ after_poll self.old stamp statement }
        ensures sound { IsSound self.new }
    {
        if let Some(reply) = take_reply(&mut self.replies, stamp.actor) {
            let event = Event::Taken { statement };
            push_entry(&mut self.journal, self.number, stamp, event);
            return Polled::Taken {
                report: reply.report,
                begin: reply.begin,
            };
        }
        let polls = polls_of(&self.polls, stamp.actor) + 1;
        if polls < self.turns {
            set_polls(&mut self.polls, stamp.actor, polls);
            return Polled::NotYet;
        }
        take_out(&mut self.queue, stamp.actor);
        let event = Event::Spent {
            statement,
            turns: self.turns,
        };
        push_entry(&mut self.journal, self.number, stamp, event);
        Polled::Spent { turns: self.turns }
    }

    /// Takes the caller's request back, or its answer where it was served.
    pub fn withdraw(&mut self, stamp: Stamp, statement: u32) -> Withdrawn
        requires { MayWithdraw self.old stamp statement }
        ensures answer { result ≡ withdrawn self.old stamp statement }
        ensures desk { self.new ≡ after_withdraw self.old stamp statement }
        ensures sound { IsSound self.new }
    {
        if let Some(_reply) = take_reply(&mut self.replies, stamp.actor) {
            let event = Event::Taken { statement };
            push_entry(&mut self.journal, self.number, stamp, event);
            return Withdrawn::Taken;
        }
        take_out(&mut self.queue, stamp.actor);
        let event = Event::Withdrawn { statement };
        push_entry(&mut self.journal, self.number, stamp, event);
        Withdrawn::Removed
    }

    /// Kills the statement that is on, if one is. A kill of the connection lets none begin after it.
    pub fn kill(&mut self, stamp: Stamp, statement: u32, kind: KillKind) -> Killed
        requires { MayKill self.old stamp statement kind }
        ensures answer { result ≡ kill_answer (phase self.old) }
        ensures desk { self.new ≡ after_kill self.old stamp statement kind }
        ensures sound { IsSound self.new }
    {
        if is_over(self.phase) {
            let event = Event::Refused {
                statement,
                why: RefusedWhy::NoSuchThread,
            };
            push_entry(&mut self.journal, self.number, stamp, event);
            return Killed::NoSuchThread;
        }
        self.phase = killed_in(self.phase);
        self.doomed = doomed_by(self.doomed, kind);
        let event = Event::KillSent { statement, kind };
        push_entry(&mut self.journal, self.number, stamp, event);
        Killed::Ok
    }

    /// Waits until `at` steps are published, for `budget` looks. A look for another statement or another
    /// number opens a wait of its own, and drops the one that was open.
    pub fn look(&mut self, stamp: Stamp, statement: u32, at: u64, budget: u64) -> Looked
        requires { MayLook self.old stamp statement at budget }
        ensures answer { result ≡ looked self.old stamp statement at }
        ensures desk { self.new ≡ after_look self.old stamp statement at }
        ensures sound { IsSound self.new }
    {
        let looks = looks_of(&self.waits, stamp.actor, statement, at);
        let looked = look_in(self.phase, at, self.published, looks, budget);
        let wait = wait_after(looked, statement, at, looks);
        set_wait(&mut self.waits, stamp.actor, wait);
        if let Some(event) = look_event(looked, statement) {
            push_entry(&mut self.journal, self.number, stamp, event);
        }
        looked
    }
}
