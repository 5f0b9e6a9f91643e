ghost use Rattle.std.specs.Prelude.{◌≡◌, option_map, if◌then◌else◌};
ghost use Rattle.sa_desk.specs.Serving.{report_of};
ghost use Rattle.sa_desk.specs.call.End.{run_of, outcome_of, end_answer, stopped, Fits};
ghost use Rattle.sa_desk.specs.inner.Parts.{steps_in};
ghost use Rattle.sa_desk.specs.call.Point.{point_answer};

use crate::answer::{Ended, Seen};
use crate::outcome::{Finish, Outcome, StepStop};
use sa_count::Report;
use sa_meaning::Running;

/// What a point answers.
pub fn seen(killed: bool) -> Seen
    ensures { result ≡ point_answer killed }
{
    if killed { Seen::Kill } else { Seen::Go }
}

/// What the end of a statement answers.
pub fn ended(killed: bool) -> Ended
    ensures { result ≡ end_answer killed }
{
    if killed {
        Ended::Interrupted
    } else {
        Ended::Kept
    }
}

/// What the run that the end is given has counted.
pub fn last_report<R: Running>(finish: &Finish<R>) -> Option<Report>
    ensures { result ≡ option_map report_of (run_of R.progress finish.now) }
{
    match finish {
        Finish::Plain(_) => None,
        Finish::Rows { run, .. } | Finish::Analyzed { run, .. } | Finish::Broken { run, .. } => {
            Some(run.report())
        }
    }
}

/// The steps of the last report, and none without one.
pub fn last_steps(last: Option<&Report>) -> u64
    ensures { result ≡ steps_in (option_map (λ report. report.now) last.entry) }
{
    match last {
        Some(report) => report.steps,
        None => 0,
    }
}

/// How the statement ends.
pub fn ended_with<R: Running>(killed: bool, finish: Finish<R>) -> Outcome
    requires { Fits R.progress killed finish }
    ensures { result ≡ (if killed then Outcome.Interrupted else outcome_of R.progress finish) }
{
    if killed {
        return Outcome::Interrupted;
    }
    match finish {
        Finish::Plain(outcome) => outcome,
        Finish::Rows { names, run } => Outcome::Rows {
            names,
            rows: run.into_rows(),
        },
        Finish::Analyzed { plan, run } => Outcome::Analyzed {
            plan,
            report: run.report(),
        },
        Finish::Broken { fault, .. } => stopped(fault),
    }
}

/// How a statement ends whose run stopped.
fn stopped(fault: StepStop) -> Outcome
    ensures { result ≡ stopped fault }
{
    match fault {
        StepStop::RowLimit => Outcome::RowLimit,
        StepStop::TooManyRows => Outcome::TooManyRows,
        StepStop::OutOfMemory => Outcome::OutOfMemory,
        StepStop::Killed => Outcome::Interrupted,
    }
}
