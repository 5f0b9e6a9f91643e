//! The turns of a run between its Begin and its End.

ghost use Rattle.std.specs.Prelude.{◌≡◌, ◌+◌, ◌<◌, ◌^◌, true};
ghost use Rattle.sa_desk.specs.Contents.{phase};
ghost use Rattle.sa_desk.specs.Serving.{is_killed, served_entries};
ghost use Rattle.sa_desk.specs.World.{next_stamp, IsCall};
ghost use Rattle.sa_desk.specs.call.Point.{MayPoint, point_answer};
ghost use Rattle.sa_desk.specs.call.Point as point_call;
ghost use Rattle.sa_worker.specs.View.{makes_steps, me_of};
ghost use Rattle.sa_worker.specs.Next.{after_point};
ghost use Rattle.sa_worker.specs.Works.{Makes};
ghost use Rattle.sa_worker.specs.Holds.{Holds};
ghost use Rattle.sa_worker.specs.inner.Fields.{paused, planned_of, rest_of, view_of};
ghost use Rattle.sa_worker.specs.inner.Ties.{IsGoal, IsOn, IsTied};

use crate::opening::Goal;
use crate::session::Session;
use crate::stage::{RunEnd, Stage, whole};
use crate::steps::{Pause, make_steps};
use sa_desk::{Desks, Seen, StepStop};
use sa_exec::Run;

/// Makes the steps of a turn. A point comes next, or the end of the run.
pub(crate) fn advance(session: &mut Session, mut run: Run, goal: Goal, made: u64)
    requires on { IsOn session.old }
    requires goal { IsGoal (rest_of session.old) (planned_of run) goal }
    requires holds { let stage = makes_steps (planned_of run) made run in
        Holds (record (view_of session.old) { stage = stage }) }
    ensures tied { IsTied session.new }
    ensures makes { let stage = makes_steps (planned_of run) made run in
        let view = record (view_of session.old) { stage = stage } in
        Makes view (planned_of run) made run (view_of session.new) }
{
    let pause = make_steps(&mut run, session.given.quantum);
    session.stage = stage_after(run, goal, made, pause);
}

/// What comes next of a run that pauses so.
fn stage_after(run: Run, goal: Goal, made: u64, pause: Pause) -> Stage
    ensures { result ≡ paused run goal made pause }
{
    match pause {
        Pause::Full => Stage::Points { run, goal, made },
        Pause::Finished => Stage::EndsRun {
            run,
            end: whole(goal),
            made,
        },
        Pause::Failed(fault) => Stage::EndsRun {
            run,
            end: RunEnd::Broken(fault),
            made,
        },
    }
}

/// Publishes how far the run has come. A killed run makes no step more.
pub(crate) fn point<D: Desks>(
    session: &mut Session,
    desks: &mut D,
    mut run: Run,
    goal: Goal,
    made: u64,
)
    requires allowed { let own = session.old.given.session in
        (D.world desks.old).may_call own own ≡ true }
    requires point { let old = D.world desks.old in
        let stamp = next_stamp old (me_of (view_of session.old)) in
        MayPoint (old.contents session.old.given.session) stamp run }
    requires turn { session.old.turn + 1 < 2 ^ 64 }
    requires made { made + 1 < 2 ^ 64 }
    requires on { IsOn session.old }
    requires goal { IsGoal (rest_of session.old) (planned_of run) goal }
    ensures tied { IsTied session.new }
    ensures next { let at = (D.world desks.old).contents session.old.given.session in
        let answer = point_answer (is_killed (phase at)) in
        view_of session.new ≡ after_point (view_of session.old) (planned_of run) made run answer }
    ensures same { D.keeps desks.old desks.new }
    ensures call { let old = D.world desks.old in
        let own = session.old.given.session in
        let at = old.contents own in
        let stamp = next_stamp old (me_of (view_of session.old)) in
        IsCall old (D.world desks.new) own own
        (served_entries at stamp run) (point_call.after_point at stamp run) }
{
    match desks.point(session.given.session, session.me(), &mut run) {
        Seen::Go => session.go(Stage::Steps {
            run,
            goal,
            made: made + 1,
        }),
        Seen::Kill => session.go(Stage::EndsRun {
            run,
            end: RunEnd::Broken(StepStop::Killed),
            made: made + 1,
        }),
    }
}
