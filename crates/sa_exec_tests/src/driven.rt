ghost use Rattle.std.specs.Prelude.{◌≡◌, ◌≤◌, ◌^◌, IfOk};

use sa_count::Report;
use sa_exec::{Run, Step, StepFault};
use sa_meaning::Running;
use sa_plan::{Plan, SharedPlan};
use sa_plan_fixtures::is_lawful;
use sa_table::{SharedTables, Tables};
use sa_value::{OutOfMemory, Rows};
use std::alloc::Global;
use std::sync::Arc;

/// How many steps are made between two looks.
const QUANTUM: u32 = 1;

/// Why a run isn't started.
#[derive(Clone, Copy, Debug, PartialEq, Eq)]
pub(crate) enum NotStarted {
    /// The test's plan doesn't fit its tables.
    Unlawful,
    /// Memory ran out.
    OutOfMemory,
}

impl From<OutOfMemory> for NotStarted {
    fn from(_error: OutOfMemory) -> NotStarted {
        NotStarted::OutOfMemory
    }
}

/// A run that is stepped only where it may be.
#[derive(Drop)]
pub(crate) struct Driven {
    run: Run,
    failed: bool,
    ghost failed_is: { run.failed ≡ failed },
    ghost quantum: { 1 ≤ run.quantum },
}

impl Driven {
    /// A run of statement 7 over these tables.
    pub(crate) fn start(
        alloc: Global,
        tables: Tables,
        plan: Plan,
        row_limit: u64,
    ) -> Result<Driven, NotStarted>
        requires least { 1 ≤ row_limit }
        requires most { row_limit ≤ 2 ^ 40 }
    {
        if !is_lawful(&tables, &plan) {
            return Err(NotStarted::Unlawful);
        }
        let plan = shared_plan(alloc, plan)?;
        let tables = shared_tables(alloc, tables)?;
        let run = Run::start(alloc, 7, plan, tables, QUANTUM, row_limit)?;
        Ok(Driven { run, failed: false })
    }

    /// Makes the next step, if there is one.
    pub(crate) fn step(&mut self) -> Option<Result<Step, StepFault>> {
        if self.failed || self.run.finished() {
            return None;
        }
        // that the steps are within the items is what a report tells
        let _ = self.run.report();
        self.run.looked();
        let outcome = self.run.step();
        self.failed = outcome.is_err();
        Some(outcome)
    }

    /// What the run has counted.
    pub(crate) fn report(&self) -> Report {
        self.run.report()
    }

    /// Whether all items are made.
    pub(crate) fn finished(&self) -> bool {
        self.run.finished()
    }

    /// The rows of the run, once it is finished.
    pub(crate) fn into_rows(self) -> Option<Rows> {
        let Driven { run, .. } = self;
        if run.finished() {
            Some(run.into_rows())
        } else {
            None
        }
    }
}

/// The plan, for several to hold.
fn shared_plan(alloc: Global, plan: Plan) -> Result<SharedPlan, OutOfMemory>
    ensures { IfOk result (λ shared. shared ≡ plan) }
{
    Ok(SharedPlan::new(Arc::new(alloc, plan)?))
}

/// The tables, for several to hold.
fn shared_tables(alloc: Global, tables: Tables) -> Result<SharedTables, OutOfMemory>
    ensures { IfOk result (λ shared. shared ≡ tables) }
{
    Ok(SharedTables::new(Arc::new(alloc, tables)?))
}
