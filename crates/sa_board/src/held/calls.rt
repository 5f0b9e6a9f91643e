use crate::held::Held;
use sa_ast::{AskKind, KillKind};
use sa_desk::{
    Asked, Begun, Caller, Desks, Ended, Finish, Killed, Looked, Polled, Seen, Withdrawn,
};
use sa_meaning::Running;
use sa_plan::SharedPlan;
use sa_table::SharedTables;
use sa_value::Text;

/// One call of the desk, by the session that has it out.
impl<'a, 'p> Desks for Held<'a, 'p> {
    ghost use Rattle.std.specs.Prelude.{◌≡◌};
    ghost use Rattle.sa_board.specs.Pass.{SamePass, world_of};

    ghost world = { λ held. world_of held.pass.now };

    ghost keeps = { λ before later. (later.pass.ghost_name ≡ before.pass.ghost_name)
        × (later.board.now ≡ before.board.now) × SamePass before.pass.now later.pass.now };

    fn begin(
        &mut self,
        desk: u32,
        me: Caller,
        statement: u32,
        text: Text,
        version: u64,
        plan: Option<SharedPlan>,
        tables: Option<SharedTables>,
    ) -> Begun {
        self.pass
            .begin(desk, me, statement, text, version, plan, tables)
    }

    fn point<R: Running>(&mut self, desk: u32, me: Caller, run: &mut R) -> Seen {
        self.pass.point(desk, me, run)
    }

    fn look_own(&mut self, desk: u32, me: Caller) -> Seen {
        self.pass.look_own(desk, me)
    }

    fn end<R: Running>(
        &mut self,
        desk: u32,
        me: Caller,
        statement: u32,
        finish: Finish<R>,
    ) -> Ended {
        self.pass.end(desk, me, statement, finish)
    }

    fn ask(&mut self, desk: u32, me: Caller, statement: u32, kind: AskKind, budget: u64) -> Asked {
        self.pass.ask(desk, me, statement, kind, budget)
    }

    fn poll(&mut self, desk: u32, me: Caller, statement: u32) -> Polled {
        self.pass.poll(desk, me, statement)
    }

    fn withdraw(&mut self, desk: u32, me: Caller, statement: u32) -> Withdrawn {
        self.pass.withdraw(desk, me, statement)
    }

    fn kill(&mut self, desk: u32, me: Caller, statement: u32, kind: KillKind) -> Killed {
        self.pass.kill(desk, me, statement, kind)
    }

    fn look(&mut self, desk: u32, me: Caller, statement: u32, at: u64, budget: u64) -> Looked {
        self.pass.look(desk, me, statement, at, budget)
    }

    fn close(&mut self, desk: u32, me: Caller) {
        self.pass.close(desk, me);
    }
}
