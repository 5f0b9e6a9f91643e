use crate::given::Given;
use crate::settings::{Change, Settings};
use crate::stage::Stage;
use sa_desk::Caller;
use sa_plan::Prepared;
use sa_query::Refusal;
use sa_value::{Text, Texts};
use std::collections::VecDeque;
use std::snapshot::Snapshot;

/// One session's program, as far as it has come.
#[derive(Drop)]
pub(crate) struct Session {
    pub(crate) given: Given,
    /// The texts of the statements that are not prepared yet.
    pub(crate) statements: VecDeque<Text>,
    /// The texts of all statements, for contracts alone.
    pub(crate) texts: Snapshot<Texts>,
    /// The statement that is on or begins next, counted from 1.
    pub(crate) number: u32,
    /// The turns made, and the one in which the last statement began.
    pub(crate) turn: u64,
    pub(crate) began: u64,
    pub(crate) settings: Settings,
    /// What the end of the statement that is on changes of the settings.
    pub(crate) change: Change,
    pub(crate) about: About,
    pub(crate) stage: Stage,
}

/// What preparing the last statement answered, for contracts alone.
#[derive(Drop)]
pub(crate) enum About {
    Prepared(Snapshot<Prepared>),
    Refused(Snapshot<Refusal>),
    /// Memory ran out before its Begin, which has this text then.
    Starved(Snapshot<Text>),
}

impl Session {
    ghost use Rattle.std.specs.Prelude.{◌≡◌, ◌+◌, ◌<◌, ◌^◌};
    ghost use Rattle.sa_worker.specs.View.{me_of};
    ghost use Rattle.sa_worker.specs.inner.Fields.{view_of};

    /// Who makes the next turn.
    pub(crate) fn me(&self) -> Caller
        requires { self.now.turn + 1 < 2 ^ 64 }
        ensures { result ≡ me_of (view_of self.now) }
    {
        Caller {
            actor: self.given.session,
            turn: self.turn + 1,
        }
    }

    /// A turn is made, and this comes next.
    pub(crate) fn go(&mut self, stage: Stage)
        requires { self.old.turn + 1 < 2 ^ 64 }
        ensures { self.new ≡ record self.old { turn = self.old.turn + 1; stage = stage } }
    {
        self.turn += 1;
        self.stage = stage;
    }
}
