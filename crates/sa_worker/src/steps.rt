//! The steps that a turn makes of a run.

ghost use Rattle.std.specs.Prelude.{◌≡◌, ◌+◌, ◌<◌, ◌≤◌, false, length};
ghost use Rattle.sa_meaning.specs.Items.{items};
ghost use Rattle.sa_meaning.specs.Progress.{IsFinished};
ghost use Rattle.sa_desk.specs.program.RunEnds.{IsClear};
ghost use Rattle.sa_worker.specs.inner.Steps.{stop_for, MakesSteps};

use sa_desk::StepStop;
use sa_exec::{Run, Step, StepFault};
use sa_meaning::Running;

/// Why no more steps are made in a turn.
#[derive(Clone, Copy, Debug, PartialEq, Eq)]
pub(crate) enum Pause {
    /// A quantum is made, and items are left.
    Full,
    /// All items are made.
    Finished,
    /// A step failed.
    Failed(StepStop),
}

/// Makes steps until a quantum is made, none is left, or one fails.
pub(crate) fn make_steps(run: &mut Run, quantum: u32) -> Pause
    requires quantum { run.old.quantum ≡ quantum }
    requires some { 1 ≤ quantum }
    requires looked { run.old.since_looked ≡ 0 }
    requires unfailed { run.old.failed ≡ false }
    requires within { run.old.steps ≤ length (items run.old.plan run.old.data_read) }
    requires clear { IsClear run.old.row_limit run.old.plan run.old.data_read run.old.steps }
    ensures { MakesSteps run.old run.new result }
{
    if run.finished() {
        return Pause::Finished;
    }
    for _ in 0..quantum {
        match run.step() {
            Ok(Step::More) => {}
            Ok(Step::Finished) => return Pause::Finished,
            Err(fault) => return Pause::Failed(stop_of(fault)),
        }
    }
    Pause::Full
}

/// A failed step as a desk is told it.
fn stop_of(fault: StepFault) -> StepStop
    ensures { result ≡ stop_for fault }
{
    match fault {
        StepFault::RowLimit => StepStop::RowLimit,
        StepFault::TooManyRows => StepStop::TooManyRows,
        StepFault::OutOfMemory => StepStop::OutOfMemory,
    }
}
