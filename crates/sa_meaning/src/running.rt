ghost use Rattle.std.specs.Prelude.{◌≡◌, ◌≤◌, ◌↔◌, length, IsTrue};
ghost use Rattle.sa_meaning.specs.Items.{items};
ghost use Rattle.sa_meaning.specs.Counts.{counts};
ghost use Rattle.sa_meaning.specs.Output.{output};
ghost use Rattle.sa_meaning.specs.Progress.{Progress, IsFinished};

use sa_count::Report;
use sa_value::Rows;

/// A run of a plan that can be looked into. None of its calls takes memory.
pub trait Running: Drop {
    /// What the run is of, and how far it has come.
    ghost progress: { Self → Progress };

    /// What the run has counted, for other sessions to see.
    fn report(&self) -> Report
        ensures counts { let run = progress self.now in result
            ≡ counts run.statement run.plan run.data_read run.steps }
        ensures within { let run = progress self.now in run.steps
            ≤ length (items run.plan run.data_read) };

    /// Whether all items of the plan are made.
    fn finished(&self) -> bool
        ensures { IsTrue result ↔ IsFinished (progress self.now) };

    /// Tells the run that it was looked into. A run makes only so many steps without that.
    fn looked(&mut self)
        ensures { progress self.new ≡ record (progress self.old) { since_looked = 0 } };

    /// The rows of a finished run, in order.
    fn into_rows(self) -> Rows
        requires { IsFinished (progress self) }
        ensures { let run = progress self in result ≡ output run.plan run.data_read };
}
