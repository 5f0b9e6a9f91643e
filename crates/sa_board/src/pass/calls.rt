use crate::pass::Pass;
use sa_ast::{AskKind, KillKind};
use sa_desk::{
    Asked, Begun, Caller, Desks, Ended, Finish, Killed, Looked, Polled, Seen, Stamp, Withdrawn,
};
use sa_meaning::Running;
use sa_plan::SharedPlan;
use sa_table::SharedTables;
use sa_value::Text;

/// One call of the desk that is out. Who has it out lends the pass to the caller.
impl Desks for Pass {
    ghost use Rattle.sa_board.specs.Pass.{SamePass, world_of};

    ghost world = { world_of };

    ghost keeps = { SamePass };

    fn begin(
        &mut self,
        _desk: u32,
        me: Caller,
        statement: u32,
        text: Text,
        version: u64,
        plan: Option<SharedPlan>,
        tables: Option<SharedTables>,
    ) -> Begun {
        let stamp = self.stamp(me);
        let Some(at) = &mut self.desk else {
            unreachable!()
        };
        let answer = at.begin(stamp, statement, text, version, plan, tables);
        self.called = true;
        answer
    }

    fn point<R: Running>(&mut self, _desk: u32, me: Caller, run: &mut R) -> Seen {
        let stamp = self.stamp(me);
        let Some(at) = &mut self.desk else {
            unreachable!()
        };
        let answer = at.point(stamp, run);
        self.called = true;
        answer
    }

    fn look_own(&mut self, _desk: u32, me: Caller) -> Seen {
        let stamp = self.stamp(me);
        let Some(at) = &mut self.desk else {
            unreachable!()
        };
        let answer = at.look_own(stamp);
        self.called = true;
        answer
    }

    fn end<R: Running>(
        &mut self,
        _desk: u32,
        me: Caller,
        statement: u32,
        finish: Finish<R>,
    ) -> Ended {
        let stamp = self.stamp(me);
        let Some(at) = &mut self.desk else {
            unreachable!()
        };
        let answer = at.end(stamp, statement, finish);
        self.called = true;
        answer
    }

    fn ask(&mut self, _desk: u32, me: Caller, statement: u32, kind: AskKind, budget: u64) -> Asked {
        let stamp = self.stamp(me);
        let Some(at) = &mut self.desk else {
            unreachable!()
        };
        let answer = at.ask(stamp, statement, kind, budget);
        self.called = true;
        answer
    }

    fn poll(&mut self, _desk: u32, me: Caller, statement: u32) -> Polled {
        let stamp = self.stamp(me);
        let Some(at) = &mut self.desk else {
            unreachable!()
        };
        let answer = at.poll(stamp, statement);
        self.called = true;
        answer
    }

    fn withdraw(&mut self, _desk: u32, me: Caller, statement: u32) -> Withdrawn {
        let stamp = self.stamp(me);
        let Some(at) = &mut self.desk else {
            unreachable!()
        };
        let answer = at.withdraw(stamp, statement);
        self.called = true;
        answer
    }

    fn kill(&mut self, _desk: u32, me: Caller, statement: u32, kind: KillKind) -> Killed {
        let stamp = self.stamp(me);
        let Some(at) = &mut self.desk else {
            unreachable!()
        };
        let answer = at.kill(stamp, statement, kind);
        self.called = true;
        answer
    }

    fn look(&mut self, _desk: u32, me: Caller, statement: u32, at: u64, budget: u64) -> Looked {
        let stamp = self.stamp(me);
        let Some(found) = &mut self.desk else {
            unreachable!()
        };
        let answer = found.look(stamp, statement, at, budget);
        self.called = true;
        answer
    }

    fn close(&mut self, _desk: u32, me: Caller) {
        let stamp = self.stamp(me);
        let Some(at) = &mut self.desk else {
            unreachable!()
        };
        at.close(stamp);
        self.called = true;
    }
}
