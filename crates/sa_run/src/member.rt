ghost use Rattle.sa_run.specs.inner.Members.{MayRun, HasRun};

use crate::script::Script;
use crate::session::run_session;
use sa_board::{Board, Pass};
use sa_plan::Preparer;
use sa_source::Pause;
use sa_value::Texts;
use std::sync::Wait;

/// A session that a thread runs.
#[derive(Drop)]
pub(crate) struct Member {
    pub(crate) session: u32,
    pub(crate) pass: Pass,
    /// Its statements, until its worker has them.
    pub(crate) statements: Option<Texts>,
    /// Whether it has closed.
    pub(crate) ended: bool,
}

/// Makes the worker of a session, and takes its turns until it has closed. Where memory runs out
/// for the worker, it hasn't ended.
pub(crate) fn run_member<R: Wait, P: Preparer, Q: Pause>(
    rt: &R,
    prepare: &P,
    pause: &Q,
    script: &Script,
    board: &Board,
    member: &mut Member,
)
    requires { MayRun (P.answers prepare.now) script.now board.now member.old }
    ensures { HasRun (P.answers prepare.now) script.now board.now member.old member.new }
{
    let Some(statements) = member.statements.take() else {
        unreachable!()
    };
    let Ok(mut worker) = script.worker(member.session, statements) else {
        return;
    };
    run_session(
        rt,
        prepare,
        pause,
        script,
        board,
        &mut worker,
        &mut member.pass,
    );
    member.ended = true;
}
