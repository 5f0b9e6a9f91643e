ghost use Rattle.std.specs.Prelude.{◌≡◌, ◌≤◌, IfOk, length, option_map};
ghost use Rattle.sa_plan.specs.Answer.{MayAnswer};
ghost use Rattle.sa_print.specs.Statement.{HasText};
ghost use Rattle.sa_prepare.specs.Prepared as spec;
ghost use Rattle.sa_prepare.specs.inner.Refused.{HasTables};

use crate::refusal::unsupported;
use crate::select::{answer_other, answer_select};
use sa_ast::Statement;
use sa_lexer::Token;
use sa_plan::{Prepared, Work};
use sa_print::statement_text;
use sa_query::Refusal;
use sa_table::Tables;
use std::alloc::Global;

/// What a statement does that neither is nor has a SELECT, if that is built.
fn work_of(statement: &Statement) -> Option<Work>
    ensures { result ≡ spec.work_of statement.now }
{
    match statement {
        Statement::Show { kind, id } => Some(Work::Show {
            kind: *kind,
            id: *id,
        }),
        Statement::Kill { kind, id } => Some(Work::Kill {
            kind: *kind,
            id: *id,
        }),
        Statement::SetLimit(limit) => Some(Work::SetLimit(*limit)),
        Statement::Wait { id, at } => Some(Work::Wait { id: *id, at: *at }),
        _ => None,
    }
}

/// The answer to a statement that neither is nor has a SELECT.
fn answer_work(alloc: Global, tokens: &[Token], statement: &Statement) -> Result<Prepared, Refusal>
    requires { HasText statement.now }
    ensures { MayAnswer (λ answer. answer ≡
        spec.built_or_unsupported tokens.now statement.now (spec.work_of statement.now)) result }
{
    let Some(work) = work_of(statement) else {
        return Err(unsupported(tokens));
    };
    match statement_text(alloc, statement) {
        Ok(text) => Ok(Prepared { text, work }),
        Err(_) => Err(Refusal::OutOfMemory),
    }
}

/// The answer to a statement.
pub(crate) fn answer_to(
    alloc: Global,
    tables: &Tables,
    tokens: &[Token],
    statement: &Statement,
) -> Result<Prepared, Refusal>
    requires text { HasText statement.now }
    requires from { HasTables statement.now }
    ensures { MayAnswer (λ answer. answer ≡ spec.answer_to tables.now tokens.now statement.now) result }
{
    match statement {
        Statement::Select(select) => answer_select(alloc, tables, tokens, statement, select),
        Statement::Explain(select) | Statement::Analyze(select) => {
            answer_other(alloc, tables, tokens, select)
        }
        _ => answer_work(alloc, tokens, statement),
    }
}
