//! EXPLAIN and ANALYZE.

ghost use Rattle.sa_parser.specs.declared.rule.Rule.TheVariants as rules;
ghost use Rattle.sa_parser.specs.inner.ExprReading.{nested_read};
ghost use Rattle.sa_parser.specs.inner.StatementReading as reading;
ghost use Rattle.sa_parser.specs.inner.Reads.{Reads};

use crate::cursor::Cursor;
use crate::fault::ReadFault;
use crate::select::select;
use sa_ast::{AskKind, Statement};
use sa_lexer::Sign;
use std::alloc::Global;

/// The place of `FORMAT = JSON`, if it is written.
#[tactic(auto, unfolding(crate::specs::inner::StatementReading::format, crate::specs::inner::Reading::perhaps, crate::specs::inner::Reading::made, crate::specs::inner::Reading::then_read))]
pub(crate) fn format(cursor: &mut Cursor<'_>) -> Result<Option<usize>, ReadFault>
    ensures { Reads (reading.format cursor.old) result cursor.new }
{
    if !cursor.sees_word("FORMAT") {
        return Ok(None);
    }
    let place = cursor.word("FORMAT")?;
    cursor.sign(Sign::Equal)?;
    cursor.word("JSON")?;
    Ok(Some(place))
}

/// `EXPLAIN` of a query, or of what another session runs.
#[tactic(auto, unfolding(crate::specs::inner::StatementReading::explain, crate::specs::inner::Reading::either, crate::specs::inner::Reading::made, crate::specs::inner::Reading::then_read))]
pub(crate) fn explain(
    alloc: Global,
    levels: usize,
    cursor: &mut Cursor<'_>,
) -> Result<Statement, ReadFault>
    ensures { Reads
        (reading.explain (nested_read levels rules.Expression) cursor.old) result cursor.new }
{
    cursor.word("EXPLAIN")?;
    format(cursor)?;
    if cursor.sees_word("FOR") {
        for_connection(cursor)
    } else {
        Ok(Statement::Explain(select(alloc, levels, cursor)?))
    }
}

/// `FOR CONNECTION` and the id of a session, behind EXPLAIN.
#[tactic(auto, unfolding(crate::specs::inner::StatementReading::for_connection, crate::specs::inner::Reading::made, crate::specs::inner::Reading::then_read))]
fn for_connection(cursor: &mut Cursor<'_>) -> Result<Statement, ReadFault>
    ensures { Reads (reading.for_connection cursor.old) result cursor.new }
{
    cursor.word("FOR")?;
    cursor.word("CONNECTION")?;
    let id = cursor.number()?;
    let kind = AskKind::Explain;
    Ok(Statement::Show { kind, id })
}

/// `ANALYZE` of a query.
#[tactic(auto, unfolding(crate::specs::inner::StatementReading::analyze, crate::specs::inner::Reading::made, crate::specs::inner::Reading::then_read))]
pub(crate) fn analyze(
    alloc: Global,
    levels: usize,
    cursor: &mut Cursor<'_>,
) -> Result<Statement, ReadFault>
    ensures { Reads
        (reading.analyze (nested_read levels rules.Expression) cursor.old) result cursor.new }
{
    cursor.word("ANALYZE")?;
    format(cursor)?;
    Ok(Statement::Analyze(select(alloc, levels, cursor)?))
}
