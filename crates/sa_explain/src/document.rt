ghost use Rattle.std.specs.Prelude.{◌≡◌, ℕ, false, length, Some, None, IfOk};
ghost use Rattle.std.specs.Option.{option_copied};
ghost use Rattle.serde_json.specs.View.{view};
ghost use Rattle.serde_json.specs.Written.{has_float};
ghost use Rattle.sa_explain.specs.Document.{counters_at, document, nested_loop, AreNamesFor};

use crate::counted::put_steps;
use crate::level::{level_json, object_of};
use sa_count::{Counters, Report};
use sa_plan::{Level, Names, Plan};
use sa_value::OutOfMemory;
use serde_json::{Map, Value as Json, put};
use std::alloc::Global;

/// The document of a plan. The names are those of its tables.
pub fn plan_json(alloc: Global, plan: &Plan, names: &Names) -> Result<Json, OutOfMemory>
    requires { AreNamesFor plan.now names.now }
    ensures document { IfOk result (λ json. view json ≡ document names.now plan.now None) }
    ensures exact { IfOk result (λ json. has_float (view json) ≡ false) }
{
    document(alloc, plan, None, names)
}

/// The document of a plan of which a run has counted this. The names are those of its tables, and the
/// report has counters for each of them.
pub fn analyze_json(
    alloc: Global,
    plan: &Plan,
    report: &Report,
    names: &Names,
) -> Result<Json, OutOfMemory>
    requires names { AreNamesFor plan.now names.now }
    requires counted { length report.now.tables.items ≡ length plan.now.levels }
    ensures document { IfOk result (λ json. view json ≡ document names.now plan.now (Some report.now)) }
    ensures exact { IfOk result (λ json. has_float (view json) ≡ false) }
{
    document(alloc, plan, Some(report), names)
}

/// The document of a plan; with a report it tells what was counted too.
#[tactic(auto, unfolding(crate::specs::Document::document))]
fn document(
    alloc: Global,
    plan: &Plan,
    report: Option<&Report>,
    names: &Names,
) -> Result<Json, OutOfMemory>
    ensures { IfOk result
        (λ json. view json ≡ document names.now plan.now (option_copied report.entry)) }
{
    let mut members = Map::new(alloc);
    put(&mut members, alloc, "select_id", Json::from(1u64))?;
    let levels = nested_loop(alloc, names, plan.levels.as_slice(), report)?;
    put(&mut members, alloc, "nested_loop", levels)?;
    let cost = plan.cost.to_string(alloc)?;
    put(&mut members, alloc, "cost", Json::from(cost))?;
    put_steps(alloc, &mut members, report)?;
    Ok(object_of(alloc, "query_block", Json::from(members))?)
}

/// The levels of a plan, with what was counted of each, if it was.
fn nested_loop(
    alloc: Global,
    names: &Names,
    levels: &[Level],
    report: Option<&Report>,
) -> Result<Json, OutOfMemory>
    ensures { IfOk result (λ json. view json
        ≡ nested_loop names.now levels.now (option_copied report.entry)) }
{
    let mut list = Vec::new(alloc);
    for (index, level) in levels.iter().enumerate() {
        let counters = counters_at(report, index);
        list.push(level_json(alloc, names, levels, level, counters)?)?;
    }
    Ok(Json::from(list))
}

/// What a report counts of a level.
fn counters_at(report: Option<&Report>, index: usize) -> Option<Counters>
    ensures { result ≡ counters_at (option_copied report.entry) index }
{
    report?.tables.as_slice().get(index).copied()
}
