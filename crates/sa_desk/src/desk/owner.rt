ghost use Rattle.std.specs.Prelude.{◌≡◌, option_map};
ghost use Rattle.sa_desk.specs.Contents.{IsSound, HasNumbers, state, phase};
ghost use Rattle.sa_desk.specs.call.Begin.{MayBegin, begin_answer, after_begin};
ghost use Rattle.sa_desk.specs.call.Close.{MayClose, after_close};
ghost use Rattle.sa_desk.specs.call.End.{MayEnd, end_answer, after_end, run_of, outcome_of};
ghost use Rattle.sa_desk.specs.call.LookOwn.{MayLookOwn};
ghost use Rattle.sa_desk.specs.call.Point.{MayPoint, point_answer, after_point};
ghost use Rattle.sa_desk.specs.Serving.{is_killed};

use crate::answer::{Begun, Ended, Seen};
use crate::desk::Desk;
use crate::desk::finishing::{ended, ended_with, last_report, last_steps, seen};
use crate::desk::parts::{begin_in, begun_with, kill_stands, push_entry};
use crate::desk::serving::{Server, later, serve, serve_last};
use crate::entry::Event;
use crate::outcome::Finish;
use crate::phase::{On, Phase};
use crate::stamp::Stamp;
use sa_meaning::Running;
use sa_plan::SharedPlan;
use sa_table::SharedTables;
use sa_value::Text;

/// What only the desk's own session calls.
impl Desk {
    /// Begins a statement, with its plan and the tables that it reads where it has one. Gone, where a
    /// KILL CONNECTION stands.
    pub fn begin(
        &mut self,
        stamp: Stamp,
        statement: u32,
        text: Text,
        version: u64,
        plan: Option<SharedPlan>,
        tables: Option<SharedTables>,
    ) -> Begun
        requires { MayBegin self.old stamp (Event.Begin statement text version plan tables) statement
            version plan tables }
        ensures answer { result ≡ begin_answer (state self.old).doomed }
        ensures desk { self.new
            ≡ after_begin self.old stamp (Event.Begin statement text version plan tables)
            statement }
        ensures sound { IsSound self.new }
    {
        if self.doomed {
            push_entry(
                &mut self.journal,
                self.number,
                stamp,
                Event::Gone { statement },
            );
            return Begun::Gone;
        }
        let on = On {
            statement,
            begin: stamp.seq,
            killed: false,
        };
        self.phase = begun_with(plan.is_some(), on);
        let event = Event::Begin {
            statement,
            text,
            version,
            plan,
            tables,
        };
        push_entry(&mut self.journal, self.number, stamp, event);
        Begun::Ok
    }

    /// Publishes how many steps the run of the statement has made, serves all who asked with what it has
    /// counted, oldest first, and tells the run that it was looked into.
    pub fn point<R: Running>(&mut self, stamp: Stamp, run: &mut R) -> Seen
        requires point { MayPoint self.old stamp (R.progress run.old) }
        requires numbers { HasNumbers stamp }
        ensures answer { result ≡ point_answer (is_killed (phase self.old)) }
        ensures desk { self.new ≡ after_point self.old stamp (R.progress run.old) }
        ensures run { R.progress run.new ≡ record (R.progress run.old) { since_looked = 0 } }
        ensures sound { IsSound self.new }
    {
        let report = run.report();
        self.published = report.steps;
        let server = Server {
            desk: self.number,
            stamp,
            begin: begin_in(self.phase),
        };
        serve(
            &mut self.journal,
            &mut self.replies,
            &self.queue,
            server,
            &report,
        );
        self.queue.clear();
        run.looked();
        seen(kill_stands(self.phase))
    }

    /// Whether a kill stands for the statement, which has no plan.
    pub fn look_own(&mut self, stamp: Stamp) -> Seen
        requires { MayLookOwn self.old stamp }
        ensures answer { result ≡ point_answer (is_killed (phase self.old)) }
        ensures desk { self.new ≡ self.old }
        ensures sound { IsSound self.new }
    {
        seen(kill_stands(self.phase))
    }

    /// Ends the statement. With a run it first serves all who asked, as `point` does. A statement that a
    /// kill stands for ends Interrupted, and what it was given is dropped.
    pub fn end<R: Running>(&mut self, stamp: Stamp, statement: u32, finish: Finish<R>) -> Ended
        requires end { MayEnd R.progress self.old stamp statement finish }
        requires numbers { HasNumbers stamp }
        ensures answer { result ≡ end_answer (is_killed (phase self.old)) }
        ensures desk { self.new ≡ after_end self.old stamp statement (run_of R.progress finish)
            (outcome_of R.progress finish) }
        ensures sound { IsSound self.new }
    {
        let server = Server {
            desk: self.number,
            stamp,
            begin: begin_in(self.phase),
        };
        let last = last_report(&finish);
        serve_last(
            &mut self.journal,
            &mut self.replies,
            &self.queue,
            server,
            last.as_ref(),
        );
        let killed = kill_stands(self.phase);
        let event = Event::End {
            statement,
            outcome: ended_with(killed, finish),
            steps: last_steps(last.as_ref()),
        };
        let stamp = later(stamp, self.queue.len());
        push_entry(&mut self.journal, self.number, stamp, event);
        self.queue.clear();
        self.phase = Phase::Idle;
        self.published = 0;
        ended(killed)
    }

    /// Ends the session.
    pub fn close(&mut self, stamp: Stamp)
        requires { MayClose self.old stamp }
        ensures desk { self.new ≡ after_close self.old stamp }
        ensures sound { IsSound self.new }
    {
        push_entry(&mut self.journal, self.number, stamp, Event::Close);
        self.phase = Phase::Closed;
    }
}
