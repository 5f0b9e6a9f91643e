//! Checks of the lines of a table.

ghost use Rattle.std.specs.Prelude.{◌≡◌};
ghost use Rattle.sa_simplify.specs.Simple.{simple};
ghost use Rattle.sa_query.specs.WellTyped.{IsWellTyped};

use crate::asked::asked;
use crate::line::cell;
use crate::ranges::range_lists;
use crate::tables::filled;
use sa_access::{Chosen, best_access};
use sa_index::{ListIndex, Shelf};
use sa_plan::{Access, AccessKind};
use sa_query::Query;
use sa_value::OutOfMemory;
use std::alloc::Global;
use std::process::Abort;
use std::sync::Arc;
use std::test::Fail;

/// Each line has its access.
pub(crate) fn each_is_chosen(rt: &impl Abort, alloc: Global, table: &str) -> Result<(), Fail> {
    for line in table.split('\n') {
        let found = found(rt, alloc, line)?;
        assert_eq!(rt; found.as_str(), cell(line, 6), "{line}");
    }
    Ok(())
}

/// The access that is found for a line.
fn found(rt: &impl Abort, alloc: Global, line: &str) -> Result<String, Fail> {
    let tables = filled(rt, alloc, cell(line, 1), cell(line, 2))?;
    let shelf: Shelf<ListIndex> = Shelf::build(alloc, Arc::new(alloc, tables)?)?;
    let query = asked(alloc, shelf.tables(), cell(line, 3))?;
    let position = number(cell(line, 4));
    let chosen = match cell(line, 5).parse() {
        Ok(earlier) => after(rt, alloc, &shelf, &query, earlier, position)?,
        Err(_) => alone(rt, alloc, &shelf, &query, position)?,
    };
    Ok(chosen_line(alloc, &chosen)?)
}

fn number(text: &str) -> u32 {
    text.parse().unwrap_or(0)
}

/// The access to a table that is read first.
fn alone(
    rt: &impl Abort,
    alloc: Global,
    shelf: &Shelf<ListIndex>,
    query: &Query,
    position: u32,
) -> Result<Chosen, OutOfMemory>
    requires fits { IsWellTyped shelf.now query.now }
    requires simplified { simple query.now.filter ≡ query.now.filter }
{
    let ranges = range_lists(alloc, shelf.tables(), query)?;
    assert!(rt; (position as usize) < query.tables.len());
    best_access(alloc, query, &[], position, &ranges, shelf)
}

/// The access to a table that is read after another.
fn after(
    rt: &impl Abort,
    alloc: Global,
    shelf: &Shelf<ListIndex>,
    query: &Query,
    earlier: u32,
    position: u32,
) -> Result<Chosen, OutOfMemory>
    requires fits { IsWellTyped shelf.now query.now }
    requires simplified { simple query.now.filter ≡ query.now.filter }
{
    let ranges = range_lists(alloc, shelf.tables(), query)?;
    assert!(rt; (position as usize) < query.tables.len());
    assert!(rt; (earlier as usize) < query.tables.len());
    assert!(rt; earlier != position);
    best_access(alloc, query, &[earlier], position, &ranges, shelf)
}

/// Its kind, its key, its ranges or parts, its cost and its estimate; `-` for what isn't there.
fn chosen_line(alloc: Global, chosen: &Chosen) -> Result<String, OutOfMemory> {
    let cost = chosen.cost;
    let estimate = chosen.estimate;
    let kind = kind_text(chosen.access.kind());
    let line = match &chosen.access {
        Access::All => format!(in alloc; "{kind} - - {cost} {estimate}")?,
        Access::Index { key } => format!(in alloc; "{kind} {key} - {cost} {estimate}")?,
        Access::Range { key, list } => {
            let ranges = list.ranges.len();
            format!(in alloc; "{kind} {key} {ranges} {cost} {estimate}")?
        }
        Access::Ref { key, from } | Access::EqRef { key, from } | Access::Const { key, from } => {
            let parts = from.len();
            format!(in alloc; "{kind} {key} {parts} {cost} {estimate}")?
        }
    };
    Ok(line)
}

fn kind_text(kind: AccessKind) -> &'static str {
    match kind {
        AccessKind::All => "ALL",
        AccessKind::Index => "index",
        AccessKind::Range => "range",
        AccessKind::Ref => "ref",
        AccessKind::EqRef => "eq_ref",
        AccessKind::Const => "const",
    }
}
