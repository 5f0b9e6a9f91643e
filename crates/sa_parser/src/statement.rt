//! The statements of a session.

ghost use Rattle.sa_parser.specs.inner.StatementReading as reading;
ghost use Rattle.sa_parser.specs.inner.Reads.{Reads};

mod kill;
mod plan;
mod set;
mod show;
mod trace;
mod wait;

use crate::cursor::Cursor;
use crate::fault::ReadFault;
use crate::select::select;
use crate::statement::kill::kill;
use crate::statement::plan::{analyze, explain};
use crate::statement::set::set;
use crate::statement::show::show;
use crate::statement::trace::trace_rows;
use crate::statement::wait::wait;
use sa_ast::Statement;
use std::alloc::Global;

/// A statement of a session, with expressions so many levels deep.
#[tactic(auto, unfolding(crate::specs::inner::StatementReading::statement_read, crate::specs::inner::Reading::either, crate::specs::inner::Reading::made))]
pub(crate) fn statement(
    alloc: Global,
    levels: usize,
    cursor: &mut Cursor<'_>,
) -> Result<Statement, ReadFault>
    ensures { Reads (reading.statement_read levels cursor.old) result cursor.new }
{
    if cursor.sees_trace() {
        trace_rows(cursor)
    } else if cursor.sees_word("SELECT") {
        Ok(Statement::Select(select(alloc, levels, cursor)?))
    } else if cursor.sees_word("EXPLAIN") {
        explain(alloc, levels, cursor)
    } else if cursor.sees_word("ANALYZE") {
        analyze(alloc, levels, cursor)
    } else if cursor.sees_word("SHOW") {
        show(cursor)
    } else if cursor.sees_word("KILL") {
        kill(cursor)
    } else if cursor.sees_word("SET") {
        set(cursor)
    } else {
        wait(cursor)
    }
}
