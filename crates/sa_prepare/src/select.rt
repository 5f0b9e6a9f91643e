//! The answers to statements that have a SELECT.

ghost use Rattle.std.specs.Prelude.{◌≡◌, ◌≤◌, IfOk, length};
ghost use Rattle.sa_plan.specs.Answer.{MayAnswer};
ghost use Rattle.sa_print.specs.Statement.{HasText};
ghost use Rattle.sa_resolve.specs.Fault.{least};
ghost use Rattle.sa_resolve.specs.Resolved.{faults_of};
ghost use Rattle.sa_prepare.specs.PlanFor as plan;
ghost use Rattle.sa_prepare.specs.Prepared as spec;
ghost use Rattle.sa_prepare.specs.inner.Planned.{CanPlan, WillPlan};
ghost use Rattle.sa_prepare.specs.inner.Refused.{IsFault, built_answer, select_answer, other_answer};

use crate::plan::plan_for;
use crate::refusal::{resolve_refusal, unsupported};
use crate::unbuilt::unbuilt_place;
use sa_ast::{SelectTree, Statement};
use sa_lexer::Token;
use sa_plan::{Plan, Planned, Prepared, SharedPlan, Work};
use sa_print::statement_text;
use sa_query::{Query, Refusal};
use sa_resolve::{ResolveFault, resolve};
use sa_table::Tables;
use sa_value::OutOfMemory;
use std::alloc::Global;
use std::sync::Arc;

/// A statement that is ready to run as this plan.
fn ready_with(
    alloc: Global,
    tables: &Tables,
    statement: &Statement,
    query: Query,
) -> Result<Prepared, OutOfMemory>
    requires text { HasText statement.now }
    requires plan { CanPlan tables.now query }
    ensures { IfOk result (λ prepared. Ok prepared ≡
        spec.ready_with statement.now (spec.select_work (plan.plan_for tables.now query))) }
{
    let plan = plan_for(alloc, tables, query)?;
    let work = select_work(alloc, plan)?;
    Ok(Prepared {
        text: statement_text(alloc, statement)?,
        work,
    })
}

/// What a SELECT does that has this plan.
fn select_work(alloc: Global, plan: Plan) -> Result<Work, OutOfMemory>
    ensures { IfOk result (λ does. does ≡ spec.select_work plan) }
{
    Ok(Work::Select(Planned {
        plan: SharedPlan::new(Arc::new(alloc, plan)?),
    }))
}

/// The answer to a SELECT. What is wrong with it is told before what isn't built.
pub(crate) fn answer_select(
    alloc: Global,
    tables: &Tables,
    tokens: &[Token],
    statement: &Statement,
    select: &SelectTree,
) -> Result<Prepared, Refusal>
    requires text { HasText statement.now }
    requires from { 1 ≤ length select.now.from }
    ensures { MayAnswer
        (λ answer. answer ≡ select_answer tables.now tokens.now statement.now select.now) result }
{
    match unbuilt_place(alloc, tokens, select) {
        Ok(None) => answer_built(alloc, tables, statement, select),
        Ok(Some(place)) => {
            let unbuilt = Refusal::NotSupported { place };
            Err(fault_or(alloc, tables, select, unbuilt))
        }
        Err(_) => Err(Refusal::OutOfMemory),
    }
}

/// The answer to a SELECT in which nothing is that isn't built.
fn answer_built(
    alloc: Global,
    tables: &Tables,
    statement: &Statement,
    select: &SelectTree,
) -> Result<Prepared, Refusal>
    requires text { HasText statement.now }
    requires plan { WillPlan tables.now select.now }
    ensures { MayAnswer
        (λ answer. answer ≡ built_answer tables.now statement.now select.now) result }
{
    match resolve(alloc, select, tables) {
        Ok(query) => match ready_with(alloc, tables, statement, query) {
            Ok(prepared) => Ok(prepared),
            Err(_) => Err(Refusal::OutOfMemory),
        },
        Err(fault) => Err(resolve_refusal(fault)),
    }
}

/// The answer to a statement that has a SELECT and isn't built.
pub(crate) fn answer_other(
    alloc: Global,
    tables: &Tables,
    tokens: &[Token],
    select: &SelectTree,
) -> Result<Prepared, Refusal>
    ensures { MayAnswer
        (λ answer. answer ≡ other_answer tables.now tokens.now select.now) result }
{
    Err(fault_or(alloc, tables, select, unsupported(tokens)))
}

/// What is wrong with a SELECT, or else that something isn't built.
fn fault_or(alloc: Global, tables: &Tables, select: &SelectTree, unbuilt: Refusal) -> Refusal
    ensures { MayAnswer
        (λ answer. answer ≡ spec.unless_faulty (least (faults_of tables.now select.now)) (Err unbuilt))
        (Err result) }
{
    match fault_of(alloc, tables, select) {
        None => unbuilt,
        Some(fault) => resolve_refusal(fault),
    }
}

/// What is wrong with a SELECT.
fn fault_of(alloc: Global, tables: &Tables, select: &SelectTree) -> Option<ResolveFault>
    ensures { IsFault tables.now select.now result }
{
    resolve(alloc, select, tables).err()
}
