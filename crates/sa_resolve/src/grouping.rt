ghost use Rattle.std.specs.Prelude.{◌≡◌, ◌+◌, ◌<◌, not, vec_len, List, [], ◌∷◌, ◌++◌, Option, option_map, IfOk, OnOk};
ghost use Rattle.std.specs.List.{filter, flat_map, list_any, remove};
ghost use Rattle.sa_ast.specs.declared.select.SelectTree.{SelectTree};
ghost use Rattle.sa_query.specs.Groups.{firsts};
ghost use Rattle.sa_table.specs.Table.{Table};
ghost use Rattle.sa_resolve.specs.declared.sight.Sight.{Sight};
ghost use Rattle.sa_resolve.specs.Clauses.{Clauses, clauses_with, column_of, slots_of};
ghost use Rattle.sa_resolve.specs.Fault.{least};
ghost use Rattle.sa_resolve.specs.Faults.{loose_faults};
ghost use Rattle.sa_resolve.specs.Node.{Slots as Found};
ghost use Rattle.sa_resolve.specs.Reading.{Reading};
ghost use Rattle.sa_resolve.specs.Same.{same_aggregate, same_column};
ghost use Rattle.sa_resolve.specs.Sight.{as_list};
ghost use Rattle.sa_resolve.specs.inner.Building.{slots_at};
ghost use Rattle.sa_resolve.specs.inner.Grouped.{loose_among, loose_by};
ghost use Rattle.sa_resolve.specs.inner.Knowing.{AreKnown, AreLooked, aggregates_in, answer_readings};
ghost use Rattle.sa_resolve.specs.inner.Least.{fault_of};
ghost use Rattle.sa_resolve.specs.inner.Looking.{loose_at};

use crate::clauses::Clauses as Known;
use crate::least::{Fault, sooner, told};
use crate::look::Looked;
use crate::mentions::Loose;
use crate::slots::{Slots, aggregate_at};
use sa_query::{Aggregate, Column, ResolveKind};
use sa_value::OutOfMemory;
use std::alloc::Global;

impl Known<'_, '_> {
    /// The slots of the query, if it groups. These are the aggregates of its select list, HAVING
    /// and ORDER BY, in order of their mention.
    pub(crate) fn slots(
        &self,
        alloc: Global,
        aggregates: Vec<Aggregate>,
    ) -> Result<Option<Slots>, OutOfMemory>
        ensures { (tables : List Table) (tree : SelectTree) (slots : Option Found) (sight : Sight) →
            AreKnown tables tree slots sight self.now →
            aggregates.items ≡ aggregates_in (answer_readings (clauses_with tables tree slots)) →
            IfOk result (λ held. option_map slots_at held
            ≡ slots_of (clauses_with tables tree slots)) }
    {
        if !self.does_group() {
            return Ok(None);
        }
        let group = group_columns(alloc, &self.group)?;
        let aggregates = firsts(alloc, aggregates)?;
        Ok(Some(Slots::new(alloc, group, aggregates)?))
    }
}

/// The columns of GROUP BY.
fn group_columns(alloc: Global, group: &[Looked]) -> Result<Vec<Column>, OutOfMemory>
    ensures { (readings : List Reading) → AreLooked group.now readings →
        IfOk result (λ columns. columns.items ≡ flat_map column_of readings) }
{
    let mut columns = Vec::with_capacity(alloc, group.len())?;
    for item in group {
        put_column(&mut columns, item.facts.column)?;
    }
    Ok(columns)
}

/// The column that an item is, if it is one.
fn put_column(columns: &mut Vec<Column>, column: Option<Column>) -> Result<(), OutOfMemory>
    ensures { OnOk result (columns.new.items ≡ columns.old.items ++ as_list column) }
{
    if let Some(column) = column {
        columns.push(column)?;
    }
    Ok(())
}

/// Each different aggregate once, in order of its first mention.
fn firsts(alloc: Global, aggregates: Vec<Aggregate>) -> Result<Vec<Aggregate>, OutOfMemory>
    ensures { IfOk result (λ kept. kept.items ≡ firsts same_aggregate aggregates.items) }
{
    let mut left = aggregates;
    let mut kept: Vec<Aggregate> = Vec::new(alloc);
    while let Some(one) = left.pop() {
        remove_same(&mut kept, &one);
        kept.insert(0, one)?;
    }
    Ok(kept)
}

/// Removes the aggregates that are the same as this one.
fn remove_same(kept: &mut Vec<Aggregate>, one: &Aggregate)
    ensures { kept.new.items
        ≡ filter (λ other. not (same_aggregate one.now other)) kept.old.items }
{
    while let Some(index) = aggregate_at(kept.as_slice(), one) {
        remove_at(kept, index);
    }
}

fn remove_at(kept: &mut Vec<Aggregate>, index: usize)
    requires { index < vec_len kept.old }
    ensures items { kept.new.items ≡ remove kept.old.items index }
    ensures len { vec_len kept.new + 1 ≡ vec_len kept.old }
{
    kept.remove(index);
}

/// Where a SELECT groups, a column outside aggregates has to be one of GROUP BY.
pub(crate) fn loose_fault(slots: &Option<Slots>, loose: &[Loose]) -> Option<Fault>
    ensures { (clauses : Clauses) (one : Reading) →
        option_map slots_at slots.now ≡ slots_of clauses → loose_at loose.now ≡ one.loose →
        fault_of result ≡ least (loose_faults clauses one) }
{
    match slots {
        None => None,
        Some(slots) => loose_among(slots, loose),
    }
}

/// A column of these that is none of GROUP BY.
fn loose_among(slots: &Slots, loose: &[Loose]) -> Option<Fault>
    ensures { fault_of result ≡ least (loose_among slots.now.group.items (loose_at loose.now)) }
{
    let mut fault = None;
    for one in loose {
        let is_loose = slots.is_loose(one.column);
        fault = sooner(fault, told(is_loose, ResolveKind::GroupRule, one.place));
    }
    fault
}

/// The same of a star that stands for these columns.
pub(crate) fn loose_star(slots: &Option<Slots>, columns: &[Column], place: usize) -> Option<Fault>
    ensures { fault_of result ≡ least (flat_map
        (λ column. loose_by (option_map slots_at slots.now) ((place, column) ∷ [])) columns.now) }
{
    match slots {
        None => None,
        Some(slots) => told(has_loose(slots, columns), ResolveKind::GroupRule, place),
    }
}

/// Whether one of these columns is none of GROUP BY.
fn has_loose(slots: &Slots, columns: &[Column]) -> bool
    ensures { result
        ≡ list_any (λ column. not (list_any (same_column column) slots.now.group.items)) columns.now }
{
    columns.iter().any(|one| slots.is_loose(*one))
}
