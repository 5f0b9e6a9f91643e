ghost use Rattle.std.specs.Prelude.{◌≡◌, ◌++◌, List, [], map, Option, Some, None, option_map, is_some, IfErr, IfOk, IfSome};
ghost use Rattle.std.specs.List.{flat_map, zip};
ghost use Rattle.sa_table.specs.Table.{Table};
ghost use Rattle.sa_resolve.specs.declared.fault.ResolveFault.TheVariants.{Bad};
ghost use Rattle.sa_cond.specs.declared.cond.Cond.TheVariants.{And};
ghost use Rattle.sa_resolve.specs.Clauses.{clauses_with, option_list, scope_of};
ghost use Rattle.sa_resolve.specs.Expression.{Scope as Seen, first, reading};
ghost use Rattle.sa_resolve.specs.Fault.{Fault as Wrong, least};
ghost use Rattle.sa_resolve.specs.Faults.{distinct_faults, faults_with, list_faults};
ghost use Rattle.sa_resolve.specs.Node.{Slots as Found};
ghost use Rattle.sa_resolve.specs.Reading.{Reading};
ghost use Rattle.sa_resolve.specs.Resolved.{IsQueryOf, faults_of, first_cond, query_with};
ghost use Rattle.sa_resolve.specs.Selected.{Selected};
ghost use Rattle.sa_resolve.specs.Told.{IsToldOf};
ghost use Rattle.sa_resolve.specs.inner.Building.{IsLast, slots_at};
ghost use Rattle.sa_resolve.specs.inner.Judging.{AreItems, IsReady, other_faults, parts_of};
ghost use Rattle.sa_resolve.specs.inner.Knowing.{Knows};
ghost use Rattle.sa_resolve.specs.inner.Least.{fault_in, fault_of, sooner};
ghost use Rattle.sa_resolve.specs.inner.Names.{Sees};
ghost use Rattle.sa_resolve.specs.inner.Walking.{AreValues};

use crate::alias::Aliases;
use crate::build::{Builder, Stage};
use crate::clauses::{Clauses, Reader, rows};
use crate::distinct::distinct_fault;
use crate::fault::ResolveFault;
use crate::from::from_fault;
use crate::least::{Fault, sooner};
use crate::query::{filter, items, table_uses};
use crate::select::SelectList;
use crate::sight::Sight;
use crate::slots::Slots;
use sa_ast::{ExprTree, SelectTree};
use sa_cond::Cond;
use sa_query::{Aggregates, Columns, Item, Items, OrderKeys, Query, TableUses};
use sa_table::Tables;
use sa_value::OutOfMemory;
use std::alloc::Global;

/// The query that a SELECT stands for over tables, or the least fault of it.
///
/// Source: MariaDB Knowledge Base, "SELECT".
pub fn resolve<'a>(
    alloc: Global,
    tree: &'a SelectTree,
    tables: &'a Tables,
) -> Result<Query, ResolveFault>
    ensures query { IfOk result (λ query. IsQueryOf tables.now tree.now query) }
    ensures fault { IfErr result (IsToldOf (faults_of tables.now tree.now)) }
{
    let sight = Sight::new(alloc, tables, tree.from.as_slice())?;
    let over = rows(alloc, &sight);
    let mut aggregates = Vec::new(alloc);
    let select = SelectList::look(&over, tree.items.as_slice(), &mut aggregates)?;
    let aliases = Aliases::new(alloc, select.parts.as_slice())?;
    let reader = Reader::new(alloc, &sight, &select, &aliases);
    let clauses = reader.clauses(tree, &mut aggregates)?;
    let slots = clauses.slots(alloc, aggregates)?;
    let known = Known {
        tree,
        reader,
        clauses,
    };
    known.query(slots)
}

/// A SELECT of which all is known but its trees.
#[derive(Drop)]
struct Known<'a, 's, 't> {
    tree: &'a SelectTree,
    reader: Reader<'a, 's, 't>,
    clauses: Clauses<'a, 't>,
}

impl Known<'_, '_, '_> {
    /// The query with these slots, if nothing is wrong.
    fn query(&self, slots: Option<Slots>) -> Result<Query, ResolveFault>
        ensures query { (tables : List Table) (found : Option Found) →
            IsReady tables found self.now slots →
            IfOk result (λ query.
            (faults_with tables self.now.tree.now (clauses_with tables self.now.tree.now found) ≡ [])
            × (query ≡ query_with tables self.now.tree.now
            (clauses_with tables self.now.tree.now found))) }
        ensures fault { (tables : List Table) (found : Option Found) →
            IsReady tables found self.now slots →
            IfErr result (IsToldOf (faults_with tables self.now.tree.now
            (clauses_with tables self.now.tree.now found))) }
    {
        let sight = self.reader.rows.sight;
        let columns = sight.columns.as_slice();
        match self.clauses.select_fault(&slots, columns) {
            Some(fault) => {
                let other = self.other_fault(&slots, None)?;
                Err(told(fault, other))
            }
            None => self.with_items(slots),
        }
    }

    /// The same where the select list is right.
    fn with_items(&self, slots: Option<Slots>) -> Result<Query, ResolveFault>
        ensures query { (tables : List Table) (found : Option Found) →
            IsReady tables found self.now slots →
            None ≡ least (list_faults tables self.now.tree.now
            (clauses_with tables self.now.tree.now found)) →
            IfOk result (λ query.
            (faults_with tables self.now.tree.now (clauses_with tables self.now.tree.now found) ≡ [])
            × (query ≡ query_with tables self.now.tree.now
            (clauses_with tables self.now.tree.now found))) }
        ensures fault { (tables : List Table) (found : Option Found) →
            IsReady tables found self.now slots →
            None ≡ least (list_faults tables self.now.tree.now
            (clauses_with tables self.now.tree.now found)) →
            IfErr result (IsToldOf (faults_with tables self.now.tree.now
            (clauses_with tables self.now.tree.now found))) }
    {
        let items = items(&self.reader.rows, &slots, self.reader.select)?;
        match self.other_fault(&slots, Some(items.as_slice()))? {
            Some(fault) => Err(told(fault, None)),
            None => Ok(self.built(slots, items)?),
        }
    }

    /// What is wrong outside the select list. Its items are there where that is right.
    fn other_fault(
        &self,
        slots: &Option<Slots>,
        items: Option<&[Item]>,
    ) -> Result<Option<Fault>, OutOfMemory>
        ensures { (tables : List Table) (found : Option Found) →
            IsReady tables found self.now slots.now →
            IfSome items.entry (λ values. AreItems tables self.now.tree.now found values.now) →
            IfOk result (λ fault. fault_of fault ≡ least (other_faults tables self.now.tree.now
            (clauses_with tables self.now.tree.now found) (is_some items.entry))) }
    {
        let tree = self.tree;
        let clauses = &self.clauses;
        let sight = self.reader.rows.sight;
        let from = from_fault(sight, tree.from.as_slice());
        let first = sooner(from, clauses.filter_fault());
        let group = clauses.group_fault(tree.group.as_slice());
        let having = clauses.having_fault(slots, tree.having_place);
        let order = clauses.order_fault(slots, tree.order.as_slice());
        let fault = sooner(first, sooner(group, sooner(having, order)));
        if !tree.distinct {
            return Ok(fault);
        }
        Ok(sooner(fault, self.distinct_fault(slots, items)?))
    }

    fn distinct_fault<'b>(
        &self,
        slots: &'b Option<Slots>,
        items: Option<&'b [Item]>,
    ) -> Result<Option<Fault>, OutOfMemory>
        ensures { (tables : List Table) (found : Option Found) →
            IsReady tables found self.now slots.now →
            IfSome items.entry (λ values. AreItems tables self.now.tree.now found values.now) →
            IfOk result (λ fault. fault_of fault ≡ least (flat_map
            (distinct_faults (clauses_with tables self.now.tree.now found) (is_some items.entry))
            (zip self.now.tree.now.order (clauses_with tables self.now.tree.now found).order))) }
    {
        let builder = Builder {
            scope: self.reader.answered(),
            stage: Stage::Answer {
                slots: slots.as_ref(),
                items: items.unwrap_or(&[]),
            },
        };
        let trees = self.tree.order.as_slice();
        distinct_fault(&builder, slots, items, trees, &self.clauses.order)
    }

    /// The query, where nothing is wrong.
    fn built(&self, slots: Option<Slots>, items: Vec<Item>) -> Result<Query, OutOfMemory>
        ensures { (tables : List Table) (found : Option Found) →
            IsReady tables found self.now slots →
            AreItems tables self.now.tree.now found items.items →
            AreValues (clauses_with tables self.now.tree.now found).select →
            IfOk result (λ query. query ≡ query_with tables self.now.tree.now
            (clauses_with tables self.now.tree.now found)) }
    {
        let tree = self.tree;
        let rows = &self.reader.rows;
        let builder = Builder {
            scope: self.reader.answered(),
            stage: Stage::Answer {
                slots: slots.as_ref(),
                items: items.as_slice(),
            },
        };
        let order = builder.keys(tree.order.as_slice())?;
        let tables = table_uses(rows.alloc, rows.sight)?;
        let (filter, having) = self.conditions(&builder)?;
        let (group, aggregates) = parts(rows.alloc, slots);
        Ok(Query {
            tables: TableUses::from_vec(tables),
            filter,
            select: Items::from_vec(items),
            group,
            aggregates,
            having,
            distinct: tree.distinct,
            order: OrderKeys::from_vec(order),
            limit: tree.limit,
            offset: tree.offset,
        })
    }

    /// The conditions of ON and WHERE, and that of HAVING.
    fn conditions(
        &self,
        builder: &Builder<'_, '_, '_, '_>,
    ) -> Result<(Cond, Option<Cond>), OutOfMemory>
        ensures { (tables : List Table) (found : Option Found) →
            Knows tables self.now.tree.now found self.now.reader →
            AreValues (clauses_with tables self.now.tree.now found).select →
            Sees tables (scope_of tables self.now.tree.now found first)
            (clauses_with tables self.now.tree.now found).select builder.now.scope →
            IsLast (scope_of tables self.now.tree.now found first)
            (clauses_with tables self.now.tree.now found).select builder.now.stage →
            IfOk result (λ conds.
            (conds.0 ≡ And (map (λ (one : Reading). one.cond)
            ((clauses_with tables self.now.tree.now found).on
            ++ (clauses_with tables self.now.tree.now found).filter)))
            × (conds.1 ≡ first_cond (clauses_with tables self.now.tree.now found).having)) }
    {
        let tree = self.tree;
        let filter = filter(&self.reader.rows, tree.from.as_slice(), &tree.filter)?;
        let having = having(builder, &tree.having)?;
        Ok((filter, having))
    }
}

/// The condition of HAVING, if there is one.
fn having(
    builder: &Builder<'_, '_, '_, '_>,
    having: &Option<ExprTree>,
) -> Result<Option<Cond>, OutOfMemory>
    ensures { (tables : List Table) (scope : Seen) (listed : List Selected) → AreValues listed →
        Sees tables scope listed builder.now.scope → IsLast scope listed builder.now.stage →
        IfOk result (λ cond. cond ≡ first_cond (option_list (reading tables scope) having.now)) }
{
    match having {
        None => Ok(None),
        Some(tree) => Ok(Some(builder.cond(tree)?)),
    }
}

/// The GROUP BY columns and the aggregates of a query.
fn parts(alloc: Global, slots: Option<Slots>) -> (Columns, Aggregates)
    ensures { result ≡ parts_of (option_map slots_at slots) }
{
    match slots {
        None => (Columns::new(alloc), Aggregates::new(alloc)),
        Some(
            Slots {
                group,
                aggregates,
                ..
            },
        ) => (Columns::from_vec(group), Aggregates::from_vec(aggregates)),
    }
}

/// The one of these faults that is told.
fn told(fault: Fault, other: Option<Fault>) -> ResolveFault
    ensures { (faults : List Wrong) →
        least faults ≡ sooner (Some (fault_in fault)) (fault_of other) → IsToldOf faults result }
{
    match sooner(Some(fault), other) {
        None => bad(fault),
        Some(least) => bad(least),
    }
}

fn bad(fault: Fault) -> ResolveFault
    ensures { result ≡ Bad fault.kind fault.place }
{
    ResolveFault::Bad {
        kind: fault.kind,
        place: fault.place,
    }
}
