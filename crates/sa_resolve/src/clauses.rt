ghost use Rattle.std.specs.Prelude.{◌≡◌, ℕ, ◌<◌, ◌^◌, ◌||◌, List, [], ◌∷◌, ◌++◌, map, length, Option, IfOk, OnOk, is_some, vec_len};
ghost use Rattle.std.specs.List.{list_any};
ghost use Rattle.sa_ast.specs.declared.select.GroupTree.{GroupTree};
ghost use Rattle.sa_ast.specs.declared.select.OrderTree.{OrderTree};
ghost use Rattle.sa_ast.specs.declared.select.SelectTree.{SelectTree};
ghost use Rattle.sa_ast.specs.declared.select.TableTree.{TableTree};
ghost use Rattle.sa_table.specs.Table.{Table};
ghost use Rattle.sa_resolve.specs.declared.scope.Seeks.TheVariants.{Never};
ghost use Rattle.sa_resolve.specs.declared.look.Looked.{Looked};
ghost use Rattle.sa_resolve.specs.declared.sight.Sight.{Sight};
ghost use Rattle.sa_resolve.specs.Clauses.{clauses_with, groups, item_reading, items, option_list, scope_of, select_scope};
ghost use Rattle.sa_resolve.specs.Expression.{Seeks as Order, first, last, reading};
ghost use Rattle.sa_resolve.specs.Node.{Slots};
ghost use Rattle.sa_resolve.specs.Reading.{Reading};
ghost use Rattle.sa_resolve.specs.Selected.{aliases_of};
ghost use Rattle.sa_resolve.specs.Tables.{on_reading, on_readings};
ghost use Rattle.sa_resolve.specs.inner.Judging.{HaveLooked, part_call};
ghost use Rattle.sa_resolve.specs.inner.Knowing.{AreKnown, AreLooked, Knows, aggregates_in, as_looked};
ghost use Rattle.sa_resolve.specs.inner.Listing.{IsSelectList};
ghost use Rattle.sa_resolve.specs.inner.Looking.{LooksUp};
ghost use Rattle.sa_resolve.specs.inner.Names.{AreAliases, IsSight, Sees};

use crate::alias::Aliases;
use crate::look::Looked;
use crate::scope::{Scope, Seeks};
use crate::select::{Chosen, Part, SelectList};
use crate::sight::Sight;
use sa_ast::{ExprNode, ExprTree, GroupTree, OrderTree, SelectTree, TableTree};
use sa_query::Aggregate;
use sa_value::OutOfMemory;
use std::alloc::Global;

/// What is known of all clauses of a SELECT but its FROM.
#[derive(Drop)]
pub(crate) struct Clauses<'a, 't> {
    /// The conditions of ON and then of WHERE.
    pub(crate) filters: Vec<Looked>,
    pub(crate) select: &'a SelectList<'t>,
    pub(crate) group: Vec<Looked>,
    pub(crate) having: Option<Looked>,
    pub(crate) order: Vec<Looked>,
}

/// What the clauses behind the select list see.
#[derive(Clone, Copy)]
pub(crate) struct Reader<'a, 's, 't> {
    /// What is over rows, and sees no alias.
    pub(crate) rows: Scope<'a, 's, 't>,
    pub(crate) select: &'a SelectList<'t>,
    pub(crate) aliases: &'a Aliases<'s>,
}

/// What sees all tables and no alias.
pub(crate) fn rows<'a, 's, 't>(alloc: Global, sight: &'a Sight<'t>) -> Scope<'a, 's, 't>
    ensures sight { result.sight.now ≡ sight.now }
    ensures count { result.count ≡ vec_len sight.now.sources }
    ensures seeks { result.seeks ≡ Never }
{
    Scope {
        alloc,
        sight,
        count: sight.sources.len(),
        seeks: Seeks::Never,
    }
}

impl<'a, 's, 't> Reader<'a, 's, 't> {
    /// What the clauses behind this select list see.
    pub(crate) fn new(
        alloc: Global,
        sight: &'a Sight<'t>,
        select: &'a SelectList<'t>,
        aliases: &'a Aliases<'s>,
    ) -> Reader<'a, 's, 't>
        ensures sight { result.rows.sight.now ≡ sight.now }
        ensures knows { (tables : List Table) (tree : SelectTree) (slots : Option Slots) →
            IsSight tables tree.from sight.now →
            IsSelectList tables (select_scope tables tree slots) sight.now tree.items select.now →
            AreAliases (items tables tree slots) (aliases_of (items tables tree slots)) aliases.now →
            Knows tables tree slots result }
    {
        Reader {
            rows: rows(alloc, sight),
            select,
            aliases,
        }
    }

    /// What GROUP BY sees.
    fn grouped(&self) -> Scope<'a, 's, 't>
        ensures sight { result.sight.now ≡ self.now.rows.sight.now }
        ensures sees { (tables : List Table) (tree : SelectTree) (slots : Option Slots) →
            Knows tables tree slots self.now →
            Sees tables (scope_of tables tree slots last) (items tables tree slots) result }
    {
        Scope {
            seeks: Seeks::Last(self.aliases),
            ..self.rows
        }
    }

    /// What HAVING and ORDER BY see.
    pub(crate) fn answered(&self) -> Scope<'a, 's, 't>
        ensures sight { result.sight.now ≡ self.now.rows.sight.now }
        ensures sees { (tables : List Table) (tree : SelectTree) (slots : Option Slots) →
            Knows tables tree slots self.now →
            Sees tables (scope_of tables tree slots first) (items tables tree slots) result }
    {
        Scope {
            seeks: Seeks::First(self.aliases),
            ..self.rows
        }
    }

    /// All clauses. The aggregates of HAVING and ORDER BY are put to the end of `aggregates`.
    pub(crate) fn clauses(
        &self,
        tree: &SelectTree,
        aggregates: &mut Vec<Aggregate>,
    ) -> Result<Clauses<'a, 't>, OutOfMemory>
        ensures { (tables : List Table) (slots : Option Slots) →
            Knows tables tree.now slots self.now →
            IfOk result (λ known. AreKnown tables tree.now slots self.now.rows.sight.now known
            × (aggregates.new.items ≡ aggregates.old.items
            ++ aggregates_in ((clauses_with tables tree.now slots).having
            ++ (clauses_with tables tree.now slots).order))) }
    {
        let filters = self.filters(tree)?;
        let group = self.group(tree.group.as_slice())?;
        let having = self.having(&tree.having, aggregates)?;
        let order = self.order(tree.order.as_slice(), aggregates)?;
        Ok(Clauses {
            filters,
            select: self.select,
            group,
            having,
            order,
        })
    }

    /// The conditions of ON and WHERE. Their aggregates are faults and no slots.
    fn filters(&self, tree: &SelectTree) -> Result<Vec<Looked>, OutOfMemory>
        ensures { (tables : List Table) (slots : Option Slots) → Knows tables tree.now slots self.now →
            IfOk result (λ filters. AreLooked filters.items
            ((clauses_with tables tree.now slots).on ++ (clauses_with tables tree.now slots).filter)) }
    {
        let mut aggregates = Vec::new(self.rows.alloc);
        let joins = self.joins(tree.from.as_slice(), &mut aggregates)?;
        match &tree.filter {
            None => Ok(joins),
            Some(filter) => {
                let looked = self.rows.look(filter, &mut aggregates)?;
                with_last(joins, looked)
            }
        }
    }

    /// The conditions of ON; each sees the tables up to its own.
    fn joins(
        &self,
        from: &[TableTree],
        aggregates: &mut Vec<Aggregate>,
    ) -> Result<Vec<Looked>, OutOfMemory>
        ensures { (tables : List Table) → IsSight tables from.now self.now.rows.sight.now →
            self.now.rows.seeks ≡ Never →
            IfOk result (λ joins. AreLooked joins.items (on_readings tables from.now)) }
    {
        let mut joins = Vec::new(self.rows.alloc);
        for (number, table) in from.iter().enumerate() {
            self.put_join(number, table, &mut joins, aggregates)?;
        }
        Ok(joins)
    }

    /// The condition of the ON of the table at this position, if it has one.
    fn put_join(
        &self,
        number: usize,
        table: &TableTree,
        joins: &mut Vec<Looked>,
        aggregates: &mut Vec<Aggregate>,
    ) -> Result<(), OutOfMemory>
        ensures { (tables : List Table) (from : List TableTree) (ones : List Reading) →
            IsSight tables from self.now.rows.sight.now → self.now.rows.seeks ≡ Never →
            number < length from → length from < 2 ^ 64 → AreLooked joins.old.items ones →
            OnOk result (AreLooked joins.new.items
            (ones ++ on_reading tables from number table.now.on)) }
    {
        match &table.on {
            None => Ok(()),
            Some(on) => {
                let looked = self.rows.up_to(number).look(on, aggregates)?;
                joins.push(looked)?;
                Ok(())
            }
        }
    }

    fn group(&self, group: &[GroupTree]) -> Result<Vec<Looked>, OutOfMemory>
        ensures { (tables : List Table) (tree : SelectTree) (slots : Option Slots) →
            Knows tables tree slots self.now → IfOk result (λ looked. AreLooked looked.items
            (map (λ (one : GroupTree). item_reading tables tree slots last one.value) group.now)) }
    {
        let scope = self.grouped();
        let mut aggregates = Vec::new(self.rows.alloc);
        let mut looked = Vec::with_capacity(self.rows.alloc, group.len())?;
        for item in group {
            looked.push(self.item(&scope, &item.value, &mut aggregates)?)?;
        }
        Ok(looked)
    }

    fn order(
        &self,
        order: &[OrderTree],
        aggregates: &mut Vec<Aggregate>,
    ) -> Result<Vec<Looked>, OutOfMemory>
        ensures { (tables : List Table) (tree : SelectTree) (slots : Option Slots) →
            Knows tables tree slots self.now → IfOk result (λ looked. HaveLooked
            aggregates.old.items aggregates.new.items looked.items
            (map (λ (one : OrderTree). item_reading tables tree slots first one.value) order.now)) }
    {
        let scope = self.answered();
        let mut looked = Vec::with_capacity(self.rows.alloc, order.len())?;
        for item in order {
            looked.push(self.item(&scope, &item.value, aggregates)?)?;
        }
        Ok(looked)
    }

    /// HAVING, if there is one.
    fn having(
        &self,
        having: &Option<ExprTree>,
        aggregates: &mut Vec<Aggregate>,
    ) -> Result<Option<Looked>, OutOfMemory>
        ensures { (tables : List Table) (tree : SelectTree) (slots : Option Slots) →
            Knows tables tree slots self.now → IfOk result (λ looked. HaveLooked
            aggregates.old.items aggregates.new.items (as_looked looked)
            (option_list (reading tables (scope_of tables tree slots first)) having.now)) }
    {
        match having {
            None => Ok(None),
            Some(having) => Ok(Some(self.answered().look(having, aggregates)?)),
        }
    }

    /// An item of GROUP BY or ORDER BY: a number alone stands for the select item of that position.
    fn item(
        &self,
        scope: &Scope<'_, '_, '_>,
        value: &ExprTree,
        aggregates: &mut Vec<Aggregate>,
    ) -> Result<Looked, OutOfMemory>
        ensures { (tables : List Table) (tree : SelectTree) (slots : Option Slots) (seeks : Order) →
            Knows tables tree slots self.now →
            Sees tables (scope_of tables tree slots seeks) (items tables tree slots) scope.now →
            scope.now.sight.now ≡ self.now.rows.sight.now →
            IfOk result (λ looked. LooksUp aggregates.old.items aggregates.new.items looked
            (item_reading tables tree slots seeks value.now)) }
    {
        match &value.node {
            ExprNode::Number(number) => {
                let facts = self.select.positioned(scope, value.place, *number);
                Ok(Looked::name(scope.alloc, facts))
            }
            _ => scope.look(value, aggregates),
        }
    }
}

/// These expressions and one more.
fn with_last(mut looked: Vec<Looked>, one: Looked) -> Result<Vec<Looked>, OutOfMemory>
    ensures { IfOk result (λ all. all.items ≡ looked.items ++ one ∷ []) }
{
    looked.push(one)?;
    Ok(looked)
}

impl Clauses<'_, '_> {
    /// Whether the SELECT groups: it has GROUP BY, or an aggregate anywhere.
    pub(crate) fn does_group(&self) -> bool
        ensures { (tables : List Table) (tree : SelectTree) (slots : Option Slots) (sight : Sight) →
            AreKnown tables tree slots sight self.now → result ≡ groups (clauses_with tables tree slots) }
    {
        let is_grouped = !self.group.is_empty();
        let select = self.select.has_call();
        let filters = has_call(&self.filters);
        let order = has_call(&self.order);
        let having = self.having_has_call();
        is_any(is_grouped, select, filters, order, having)
    }

    /// Whether HAVING has an aggregate.
    fn having_has_call(&self) -> bool
        ensures { result
            ≡ list_any (λ (one : Looked). is_some one.facts.call) (as_looked self.now.having) }
    {
        match &self.having {
            None => false,
            Some(one) => one.facts.call.is_some(),
        }
    }
}

/// Whether one of these holds.
fn is_any(is_grouped: bool, select: bool, filters: bool, order: bool, having: bool) -> bool
    ensures { result ≡ (is_grouped || (select || (filters || (order || having)))) }
{
    is_grouped || select || filters || order || having
}

fn has_call(looked: &[Looked]) -> bool
    ensures { result ≡ list_any (λ (one : Looked). is_some one.facts.call) looked.now }
{
    looked.iter().any(|one| one.facts.call.is_some())
}

impl SelectList<'_> {
    /// Whether an item has an aggregate.
    fn has_call(&self) -> bool
        ensures { result ≡ list_any part_call self.now.parts.items }
    {
        self.parts.iter().any(|part| part.has_call())
    }
}

impl Part<'_> {
    /// Whether one of its items has an aggregate.
    fn has_call(&self) -> bool
        ensures { result ≡ part_call self.now }
    {
        match &self.chosen {
            Chosen::Columns(_) => false,
            Chosen::Value(value) => value.looked.facts.call.is_some(),
        }
    }
}
