ghost use Rattle.std.specs.Prelude.{◌≡◌, ◌+◌, ◌<◌, ◌≤◌, ◌^◌, ◌↔◌, length, true, false, IfOk, OnOk, OnErr, IsTrue};
ghost use Rattle.sa_table.specs.Sound.{AreSound};
ghost use Rattle.sa_table.specs.Table.{row_count};
ghost use Rattle.sa_plan.specs.Lawful.{IsLawful};
ghost use Rattle.sa_meaning.specs.Items.{items};
ghost use Rattle.sa_meaning.specs.Progress.{IsFinished, IsRunnable};
ghost use Rattle.sa_exec.specs.Step.{IsAtLimit, IsTooMany, MayLackMemory};
ghost use Rattle.sa_exec.specs.inner.Place.{only_level};

use crate::item::make_item;
use crate::level::LevelState;
use crate::step::{Step, StepFault};
use arrayvec::ArrayVec;
use sa_count::Report;
use sa_meaning::Running;
use sa_plan::{Plan, SharedPlan};
use sa_table::{SharedTables, Tables};
use sa_value::{OutOfMemory, Rows};
use std::alloc::Global;
use std::marker::Model;

/// A run of a plan over tables, as far as it has come.
///
/// One item of the plan's run is one step. Between two looks into the run it makes at most `quantum`
/// steps, and `row_limit` steps in all.
#[derive(Debug, Drop)]
pub struct Run {
    alloc: Global,
    statement: u32,
    plan: SharedPlan,
    tables: SharedTables,
    quantum: u32,
    row_limit: u64,
    steps: u64,
    since_looked: u32,
    failed: bool,
    level: LevelState,
    rows: Rows,
}

impl Model for Run {
    ghost use Rattle.sa_meaning.specs.Progress.{Progress};

    ghost Value = { Progress };

    ghost use Rattle.std.specs.Coded.{codes};
    ghost use Rattle.sa_cond.specs.contracts.cond.Cond as cond;
    ghost use Rattle.sa_cond.specs.contracts.expr.Expr as expr;

    ghost coded = { Prim.hlevel (codes, cond.the_row.coded, expr.the_row.coded) };

    ghost use Rattle.sa_exec.specs.inner.Sound.{progress_of, IsSound};

    ghost view = { progress_of };

    ghost invariant = { IsSound };
}

impl Run {
    /// A run of which no item is made yet. It evaluates nothing, and takes no memory for rows.
    pub fn start(
        alloc: Global,
        statement: u32,
        plan: SharedPlan,
        tables: SharedTables,
        quantum: u32,
        row_limit: u64,
    ) -> Result<Run, OutOfMemory>
        requires lawful { IsLawful tables plan }
        requires runnable { IsRunnable plan }
        requires least_quantum { 1 ≤ quantum }
        requires most_quantum { quantum ≤ 64 }
        requires least_limit { 1 ≤ row_limit }
        requires most_limit { row_limit ≤ 2 ^ 40 }
        ensures { IfOk result (λ run. run ≡ record {
          statement = statement;
          plan = plan;
          data_read = tables;
          quantum = quantum;
          row_limit = row_limit;
          steps = 0;
          since_looked = 0;
          failed = false;
        }) }
    {
        let count = count_rows(plan.plan(), tables.tables());
        Ok(Run {
            alloc,
            statement,
            plan,
            tables,
            quantum,
            row_limit,
            steps: 0,
            since_looked: 0,
            failed: false,
            level: LevelState::new(count),
            rows: Rows::new(alloc),
        })
    }

    /// Makes the next item. Only an emit takes memory, for its row.
    ///
    /// After an error no step may be made any more, but the run still reports the items that it made.
    pub fn step(&mut self) -> Result<Step, StepFault>
        requires unfinished { self.old.steps < length (items self.old.plan self.old.data_read) }
        requires unfailed { self.old.failed ≡ false }
        requires looked { self.old.since_looked < self.old.quantum }
        ensures ok { OnOk result (self.new ≡ record self.old {
          steps = self.old.steps + 1;
          since_looked = self.old.since_looked + 1;
        }) }
        ensures last { IfOk result (λ step. (step ≡ Step.Finished) ↔ IsFinished self.new) }
        ensures more { IfOk result (λ step. (step ≡ Step.More)
            ↔ (self.new.steps < length (items self.new.plan self.new.data_read))) }
        ensures row_limit { (result ≡ Err StepFault.RowLimit) ↔ IsAtLimit self.old }
        ensures too_many { (result ≡ Err StepFault.TooManyRows) ↔ IsTooMany self.old }
        ensures memory { result ≡ Err StepFault.OutOfMemory → MayLackMemory self.old }
        ensures err { OnErr result (self.new ≡ record self.old { failed = true }) }
    {
        if self.steps == self.row_limit {
            self.failed = true;
            return Err(StepFault::RowLimit);
        }
        match make_item(
            self.alloc,
            self.plan.plan(),
            self.tables.tables(),
            &mut self.level,
            &mut self.rows,
        ) {
            Ok(()) => {
                self.steps += 1;
                self.since_looked += 1;
                Ok(step_of(self.level.is_done()))
            }
            Err(fault) => {
                self.failed = true;
                Err(fault)
            }
        }
    }
}

impl Running for Run {
    ghost progress = { λ run. run };

    fn report(&self) -> Report {
        let mut tables = ArrayVec::new();
        tables.push(self.level.counters);
        Report {
            statement: self.statement,
            steps: self.steps,
            sent: self.rows.len() as u64,
            tables,
        }
    }

    fn finished(&self) -> bool {
        self.level.is_done()
    }

    fn looked(&mut self) {
        self.since_looked = 0;
    }

    fn into_rows(self) -> Rows {
        let Run { rows, .. } = self;
        rows
    }
}

/// What a step answers that leaves the plan's table done, or not.
#[inline(always)]
fn step_of(done: bool) -> Step
    ensures finished { (result ≡ Step.Finished) ↔ IsTrue done }
    ensures more { (result ≡ Step.More) ↔ (IsTrue done → ⊥) }
{
    if done { Step::Finished } else { Step::More }
}

/// How many rows the plan's only table has.
fn count_rows(plan: &Plan, tables: &Tables) -> u32
    requires lawful { IsLawful tables.now plan.now }
    requires runnable { IsRunnable plan.now }
    ensures sound { AreSound tables.now }
    ensures count { result ≡ row_count tables.now (only_level plan.now).table }
{
    // what their number is told with: that the tables are sound
    let _tables = tables.len();
    tables.count(plan.levels.as_slice()[0].table)
}
