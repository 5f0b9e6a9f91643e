//! A preparer for the scripts: `Ready`, with a list of the statements that it doesn't build yet.

ghost use Rattle.std.specs.Prelude.{◌≡◌, IfOk};
ghost use Rattle.std.specs.Arc.{arc_value};
ghost use Rattle.sa_prepare.specs.Sound.{IsSoundPlan, IsSoundWork};
ghost use Rattle.sa_worker_tests.specs.Listed.{listed};

use crate::tests::script::QUERY;
use sa_plan::{Planned, Prepared, Preparer, Work};
use sa_prepare::{Ready, prepared_is_sound};
use sa_query::Refusal;
use sa_table::Tables;
use sa_value::Text;
use std::alloc::Global;
use std::marker::Model;
use std::sync::Arc;

/// It answers for the statements of the list, and as `Ready` for all others.
#[derive(Drop)]
pub struct Listed {
    ready: Ready,
}

impl Model for Listed {
    ghost use Rattle.std.specs.Prelude.{List};
    ghost use Rattle.sa_table.specs.Table.{Table};

    ghost Value = { List Table };

    ghost view = { λ listed. listed.ready };
}

impl Listed {
    /// Over these tables.
    pub fn new(tables: Arc<Tables>) -> Listed
        ensures { result ≡ arc_value tables }
    {
        Listed {
            ready: Ready::new(tables),
        }
    }
}

/// What a statement of the list does.
#[derive(Clone, Copy, Debug)]
enum Does {
    Explain,
    Analyze,
    Trace(bool),
    TraceRows,
    Refuses(Refusal),
}

/// A statement as it is written, its canonical text, and what it does.
const LIST: [(&str, &str, Does); 6] = [
    (
        "EXPLAIN SELECT a FROM t WHERE a >= 2",
        "EXPLAIN SELECT a FROM t WHERE (a >= 2)",
        Does::Explain,
    ),
    (
        "ANALYZE SELECT a FROM t WHERE a >= 2",
        "ANALYZE SELECT a FROM t WHERE (a >= 2)",
        Does::Analyze,
    ),
    (
        "SET optimizer_trace = 'enabled=on'",
        "SET optimizer_trace = 'enabled=on'",
        Does::Trace(true),
    ),
    (
        "SET optimizer_trace = 'enabled=off'",
        "SET optimizer_trace = 'enabled=off'",
        Does::Trace(false),
    ),
    (
        "SELECT * FROM information_schema.optimizer_trace",
        "SELECT * FROM information_schema.optimizer_trace",
        Does::TraceRows,
    ),
    ("no memory", "", Does::Refuses(Refusal::OutOfMemory)),
];

impl Preparer for Listed {
    ghost answers = { listed };

    fn prepare(&self, alloc: Global, text: &str) -> Result<Prepared, Refusal> {
        match row_of(&LIST, text) {
            Some((canonical, does)) => prepared(alloc, &self.ready, canonical, does),
            None => built(alloc, &self.ready, text),
        }
    }
}

/// What stands in a list beside this statement.
fn row_of(list: &[(&'static str, &'static str, Does)], text: &str) -> Option<(&'static str, Does)> {
    for (source, canonical, does) in list {
        if *source == text {
            return Some((*canonical, *does));
        }
    }
    None
}

/// The statement with this canonical text, or why it is refused.
fn prepared(alloc: Global, ready: &Ready, canonical: &str, does: Does) -> Result<Prepared, Refusal>
    ensures { IfOk result (λ prepared. IsSoundWork ready.now prepared.work) }
{
    let work = work_of(alloc, ready, does)?;
    match Text::from_str(alloc, canonical) {
        Ok(text) => Ok(Prepared { text, work }),
        Err(_) => Err(Refusal::OutOfMemory),
    }
}

/// What the statement does.
fn work_of(alloc: Global, ready: &Ready, does: Does) -> Result<Work, Refusal>
    ensures { IfOk result (IsSoundWork ready.now) }
{
    match does {
        Does::Explain => Ok(Work::Explain(plan_query(alloc, ready)?)),
        Does::Analyze => Ok(Work::Analyze(plan_query(alloc, ready)?)),
        Does::Trace(on) => Ok(Work::SetTrace(on)),
        Does::TraceRows => Ok(Work::TraceRows),
        Does::Refuses(why) => Err(why),
    }
}

/// The plan of the query.
fn plan_query(alloc: Global, ready: &Ready) -> Result<Planned, Refusal>
    ensures { IfOk result (λ planned. IsSoundPlan ready.now planned.plan) }
{
    let Prepared { work, .. } = built(alloc, ready, QUERY)?;
    match work {
        Work::Select(planned) => Ok(planned),
        _ => Err(Refusal::NotSupported { place: 0 }),
    }
}

/// What `Ready` answers.
fn built(alloc: Global, ready: &Ready, text: &str) -> Result<Prepared, Refusal>
    ensures { IfOk result (λ prepared. IsSoundWork ready.now prepared.work) }
{
    prepared_is_sound();
    ready.prepare(alloc, text)
}
