ghost use Rattle.std.specs.Prelude.{◌≡◌, ◌<◌, ℕ, List, [], ◌∷◌, ◌++◌, length, take, drop, slice_get, option_map, IfOk, OnOk};
ghost use Rattle.std.specs.List.{flat_map};
ghost use Rattle.sa_ast.specs.declared.select.ItemNode.TheVariants.{Star, TableStar, Value};
ghost use Rattle.sa_ast.specs.declared.select.ItemTree.{ItemTree};
ghost use Rattle.sa_table.specs.Table.{Table};
ghost use Rattle.sa_resolve.specs.Clauses.{item_at, positioned};
ghost use Rattle.sa_resolve.specs.Expression.{Scope as Seen};
ghost use Rattle.sa_resolve.specs.Fault.{least};
ghost use Rattle.sa_resolve.specs.Selected.{Selected, items_at, selected, star_faults};
ghost use Rattle.sa_resolve.specs.inner.Gist.{gist_at, gist_of};
ghost use Rattle.sa_resolve.specs.inner.Least.{fault_of};
ghost use Rattle.sa_resolve.specs.inner.Listing.{Chooses, IsPart, IsRun, IsSelectList, Puts, aggregates_of, run_of_source, size_of};
ghost use Rattle.sa_resolve.specs.inner.Names.{Sees};

use crate::build::{Builder, position};
use crate::facts::Facts;
use crate::least::{Fault, sooner, told};
use crate::look::Looked;
use crate::scope::Scope;
use crate::sight::Sight;
use sa_ast::{ExprTree, ItemNode, ItemTree, NameTree};
use sa_cond::Expr;
use sa_query::{Aggregate, Column, ResolveKind};
use sa_value::OutOfMemory;

/// How many items a select list has at most.
const MOST_ITEMS: usize = 64;

/// Columns that stand one after another among those of all tables.
#[derive(Clone, Copy, Debug)]
pub(crate) struct Run {
    pub(crate) first: usize,
    pub(crate) count: usize,
}

/// An item that is an expression.
#[derive(Debug, Drop)]
pub(crate) struct Valued<'a> {
    pub(crate) tree: &'a ExprTree,
    pub(crate) alias: Option<&'a NameTree>,
    pub(crate) looked: Looked,
    /// What it stands for over rows.
    pub(crate) row: Expr,
}

/// What a part of the select list asks for.
#[derive(Debug, Drop)]
pub(crate) enum Chosen<'a> {
    Columns(Run),
    Value(Valued<'a>),
}

/// A part of the select list.
#[derive(Debug, Drop)]
pub(crate) struct Part<'a> {
    /// Its first token.
    pub(crate) place: usize,
    /// How many items stand before it.
    pub(crate) first: usize,
    pub(crate) chosen: Chosen<'a>,
}

/// A select list. The items of a star are kept as a run of columns.
#[derive(Debug, Drop)]
pub(crate) struct SelectList<'a> {
    pub(crate) parts: Vec<Part<'a>>,
    /// How many items there are.
    pub(crate) count: usize,
    /// A star of a table that isn't there, or an item too many.
    pub(crate) fault: Option<Fault>,
}

impl Run {
    /// These of all columns.
    pub(crate) fn of(self, columns: &[Column]) -> &[Column]
        ensures { result.now ≡ take self.count (drop self.first columns.now) }
    {
        let others = &columns[self.first.min(columns.len())..];
        &others[..self.count.min(others.len())]
    }
}

impl Chosen<'_> {
    /// How many items it is.
    fn size(&self) -> usize
        ensures { result ≡ size_of self.now }
    {
        match self {
            Chosen::Columns(run) => run.count,
            Chosen::Value(_) => 1,
        }
    }
}

impl<'a> SelectList<'a> {
    /// The items of a select list. Their aggregates are put to the end of `aggregates`.
    pub(crate) fn look(
        scope: &Scope<'_, '_, '_>,
        items: &'a [ItemTree],
        aggregates: &mut Vec<Aggregate>,
    ) -> Result<SelectList<'a>, OutOfMemory>
        ensures { (tables : List Table) (seen : Seen) → Sees tables seen [] scope.now →
            IfOk result (λ list. IsSelectList tables seen scope.now.sight.now items.now list
            × (aggregates.new.items ≡ aggregates.old.items
            ++ flat_map (λ (one : Selected). one.item.aggregates)
            (selected tables seen items.now))) }
    {
        let mut list = SelectList {
            parts: Vec::with_capacity(scope.alloc, items.len())?,
            count: 0,
            fault: None,
        };
        for item in items {
            list.put_item(scope, item, aggregates)?;
        }
        Ok(list)
    }

    /// One item more, as it is written. Its aggregates are put to the end of `aggregates`.
    fn put_item(
        &mut self,
        scope: &Scope<'_, '_, '_>,
        item: &'a ItemTree,
        aggregates: &mut Vec<Aggregate>,
    ) -> Result<(), OutOfMemory>
        ensures { (tables : List Table) (seen : Seen) (trees : List ItemTree) →
            Sees tables seen [] scope.now →
            IsSelectList tables seen scope.now.sight.now trees self.old →
            OnOk result
            (IsSelectList tables seen scope.now.sight.now (trees ++ item.now ∷ []) self.new
            × (aggregates.new.items ≡ aggregates.old.items
            ++ aggregates_of (items_at tables seen item.now.place item.now.item))) }
    {
        let chosen = choice(scope, item, aggregates)?;
        self.fault = sooner(self.fault, star_fault(scope, item));
        self.put(item.place, chosen)
    }

    /// One part more.
    fn put(&mut self, place: usize, chosen: Chosen<'a>) -> Result<(), OutOfMemory>
        ensures { OnOk result (Puts self.old self.new place chosen.entry) }
    {
        let first = self.count;
        let Some(count) = first.checked_add(chosen.size()) else {
            return Err(OutOfMemory);
        };
        let has_last = first <= MOST_ITEMS && MOST_ITEMS < count;
        let fault = told(has_last, ResolveKind::TooManyItems, place);
        self.fault = sooner(self.fault, fault);
        self.parts.push(Part {
            place,
            first,
            chosen,
        })?;
        self.count = count;
        Ok(())
    }

    /// What is known of a number that stands for the select item at its position.
    pub(crate) fn positioned(&self, scope: &Scope<'_, '_, '_>, place: usize, number: i128) -> Facts
        ensures { (tables : List Table) (seen : Seen) (trees : List ItemTree) →
            IsSelectList tables seen scope.now.sight.now trees self.now →
            gist_at result ≡ gist_of (positioned place (item_at (selected tables seen trees) number)) }
    {
        match self.found(scope, number) {
            None => Facts::wrong(place, ResolveKind::UnknownColumn),
            Some(facts) => facts.named(place),
        }
    }

    /// What is known of the item at a position that is counted from 1.
    fn found(&self, scope: &Scope<'_, '_, '_>, number: i128) -> Option<Facts>
        ensures { (tables : List Table) (seen : Seen) (trees : List ItemTree) →
            IsSelectList tables seen scope.now.sight.now trees self.now →
            option_map gist_at result ≡ option_map (λ (one : Selected). gist_of one.item)
            (item_at (selected tables seen trees) number) }
    {
        // No list has more items than a `usize` counts: a position past that has none.
        let _count = self.count;
        let number = position(number)?;
        self.facts_at(scope, number)
    }

    /// What is known of the item with this number, from 0.
    fn facts_at(&self, scope: &Scope<'_, '_, '_>, number: usize) -> Option<Facts>
        ensures { (tables : List Table) (seen : Seen) (trees : List ItemTree) →
            IsSelectList tables seen scope.now.sight.now trees self.now →
            option_map gist_at result ≡ option_map (λ (one : Selected). gist_of one.item)
            (slice_get (selected tables seen trees) number) }
    {
        let mut left = number;
        for part in &self.parts {
            let size = part.chosen.size();
            if left < size {
                return part.facts_at(scope, left);
            }
            left -= size;
        }
        None
    }
}

impl Part<'_> {
    /// What is known of one of the part's items.
    fn facts_at(&self, scope: &Scope<'_, '_, '_>, offset: usize) -> Option<Facts>
        ensures { (tables : List Table) (seen : Seen) (first : ℕ) (tree : ItemTree) →
            IsPart tables seen scope.now.sight.now first self.now tree →
            offset < size_of self.now.chosen →
            option_map gist_at result ≡ option_map (λ (one : Selected). gist_of one.item)
            (slice_get (items_at tables seen tree.place tree.item) offset) }
    {
        match &self.chosen {
            Chosen::Value(value) => Some(value.looked.facts),
            Chosen::Columns(run) => {
                let column = *run.of(scope.sight.columns.as_slice()).get(offset)?;
                Some(Facts::column(self.place, column, scope.sight.kind(column)))
            }
        }
    }
}

/// What a part of the select list asks for.
fn choice<'a>(
    scope: &Scope<'_, '_, '_>,
    item: &'a ItemTree,
    aggregates: &mut Vec<Aggregate>,
) -> Result<Chosen<'a>, OutOfMemory>
    ensures { (tables : List Table) (seen : Seen) → Sees tables seen [] scope.now →
        IfOk result (λ chosen. Chooses tables seen scope.now.sight.now
        aggregates.old.items aggregates.new.items item.now chosen) }
{
    match &item.item {
        ItemNode::Star => Ok(Chosen::Columns(run_of_all(scope))),
        ItemNode::TableStar(table) => Ok(Chosen::Columns(run_of(scope, table))),
        ItemNode::Value { value, alias } => Ok(Chosen::Value(Valued {
            tree: value,
            alias: alias.as_ref(),
            looked: scope.look(value, aggregates)?,
            row: Builder::over_rows(*scope).expr(value)?,
        })),
    }
}

/// The columns of all tables in sight.
fn run_of_all(scope: &Scope<'_, '_, '_>) -> Run
    ensures { (tables : List Table) (seen : Seen) (place : ℕ) → Sees tables seen [] scope.now →
        IsRun tables seen scope.now.sight.now place result (items_at tables seen place Star) }
{
    let count = match scope.sight.sources.get(scope.count) {
        None => scope.sight.columns.len(),
        Some(next) => next.first,
    };
    Run { first: 0, count }
}

/// The columns of the first table with this alias.
fn run_of(scope: &Scope<'_, '_, '_>, table: &NameTree) -> Run
    ensures { (tables : List Table) (seen : Seen) (place : ℕ) → Sees tables seen [] scope.now →
        IsRun tables seen scope.now.sight.now place result
        (items_at tables seen place (TableStar table.now)) }
{
    match scope.sight.source_named(scope.count, table.name.as_str()) {
        None => Run { first: 0, count: 0 },
        Some(number) => run_at(scope.sight, number),
    }
}

/// The columns of the table at this position.
fn run_at(sight: &Sight<'_>, number: u32) -> Run
    ensures { result ≡ run_of_source (slice_get sight.now.sources.items number) }
{
    match sight.sources.get(number as usize) {
        None => Run { first: 0, count: 0 },
        Some(source) => Run {
            first: source.first,
            count: source.defs.len(),
        },
    }
}

/// A `t.*` of a table that isn't there is told at its name.
fn star_fault(scope: &Scope<'_, '_, '_>, item: &ItemTree) -> Option<Fault>
    ensures { (tables : List Table) (seen : Seen) → Sees tables seen [] scope.now →
        fault_of result ≡ least (star_faults tables seen item.now.item) }
{
    let ItemNode::TableStar(table) = &item.item else {
        return None;
    };
    let number = scope.sight.source_named(scope.count, table.name.as_str());
    told(number.is_none(), ResolveKind::UnknownTable, table.place)
}
