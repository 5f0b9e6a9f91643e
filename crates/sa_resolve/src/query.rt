ghost use Rattle.std.specs.Prelude.{◌≡◌, ℕ, ◌<◌, ◌^◌, ◌++◌, List, [], map, length, option_map, IfOk, OnOk};
ghost use Rattle.sa_ast.specs.declared.select.ItemTree.{ItemTree};
ghost use Rattle.sa_ast.specs.declared.select.OrderTree.{OrderTree};
ghost use Rattle.sa_ast.specs.declared.select.TableTree.{TableTree};
ghost use Rattle.sa_cond.specs.declared.cond.Cond.TheVariants.{And};
ghost use Rattle.sa_table.specs.Table.{Table};
ghost use Rattle.sa_resolve.specs.declared.scope.Seeks.TheVariants.{Never};
ghost use Rattle.sa_resolve.specs.Clauses.{option_list};
ghost use Rattle.sa_resolve.specs.Expression.{Scope as Seen, reading};
ghost use Rattle.sa_resolve.specs.Reading.{Reading};
ghost use Rattle.sa_resolve.specs.Resolved.{order_key, query_item, table_use};
ghost use Rattle.sa_resolve.specs.Selected.{Selected, selected, item_name, items_at, name_of_expr};
ghost use Rattle.sa_resolve.specs.Tables.{on_reading, on_readings, over_rows, sources_of};
ghost use Rattle.sa_resolve.specs.inner.Building.{IsLast, placed, slots_at};
ghost use Rattle.sa_resolve.specs.inner.Listing.{IsSelectList, IsPart, IsValued, columns_in, star_item};
ghost use Rattle.sa_resolve.specs.inner.Names.{IsSight, Sees, source_at};

use crate::build::{Builder, Stage};
use crate::numbers::small;
use crate::scope::Scope;
use crate::select::{Chosen, Part, Run, SelectList, Valued};
use crate::sight::{Sight, Source};
use crate::slots::Slots;
use sa_ast::{ExprNode, ExprTree, NameTree, OrderTree, TableTree};
use sa_cond::{Cond, Conds};
use sa_print::expr_text;
use sa_query::{Column, Item, OrderKey, TableUse};
use sa_value::{OutOfMemory, Text};
use std::alloc::Global;

/// The tables of FROM.
pub(crate) fn table_uses(alloc: Global, sight: &Sight<'_>) -> Result<Vec<TableUse>, OutOfMemory>
    ensures { (tables : List Table) (from : List TableTree) → IsSight tables from sight.now →
        IfOk result (λ uses. uses.items ≡ map table_use (sources_of tables from)) }
{
    let mut uses = Vec::with_capacity(alloc, sight.sources.len())?;
    for source in &sight.sources {
        uses.push(table_use(alloc, source)?)?;
    }
    Ok(uses)
}

fn table_use(alloc: Global, source: &Source<'_>) -> Result<TableUse, OutOfMemory>
    ensures { IfOk result (λ one. one ≡ table_use (source_at source.now)) }
{
    Ok(TableUse {
        table: source.table.unwrap_or(0),
        alias: source.called.name.copy(alloc)?,
    })
}

/// The conditions of ON, which see the tables up to their own, and then that of WHERE.
pub(crate) fn filter(
    rows: &Scope<'_, '_, '_>,
    from: &[TableTree],
    filter: &Option<ExprTree>,
) -> Result<Cond, OutOfMemory>
    ensures { (tables : List Table) → IsSight tables from.now rows.now.sight.now →
        rows.now.count ≡ length from.now → rows.now.seeks ≡ Never →
        IfOk result (λ cond. cond ≡ And (map (λ (one : Reading). one.cond)
        (on_readings tables from.now
        ++ option_list (reading tables (over_rows (sources_of tables from.now))) filter.now))) }
{
    let mut conds = Vec::new(rows.alloc);
    for (number, table) in from.iter().enumerate() {
        put_join(rows, number, table, &mut conds)?;
    }
    put_filter(rows, filter, &mut conds)?;
    Ok(Cond::And(Conds::from_vec(conds)))
}

/// The condition of the ON of the table at this position, if it has one.
fn put_join(
    rows: &Scope<'_, '_, '_>,
    number: usize,
    table: &TableTree,
    conds: &mut Vec<Cond>,
) -> Result<(), OutOfMemory>
    ensures { (tables : List Table) (from : List TableTree) → IsSight tables from rows.now.sight.now →
        rows.now.seeks ≡ Never → number < length from → length from < 2 ^ 64 →
        OnOk result (conds.new.items ≡ conds.old.items
        ++ map (λ (one : Reading). one.cond) (on_reading tables from number table.now.on)) }
{
    match &table.on {
        None => Ok(()),
        Some(on) => {
            conds.push(Builder::filtering(rows.up_to(number)).cond(on)?)?;
            Ok(())
        }
    }
}

/// The condition of WHERE, if there is one.
fn put_filter(
    rows: &Scope<'_, '_, '_>,
    filter: &Option<ExprTree>,
    conds: &mut Vec<Cond>,
) -> Result<(), OutOfMemory>
    ensures { (tables : List Table) (from : List TableTree) → IsSight tables from rows.now.sight.now →
        rows.now.count ≡ length from → rows.now.seeks ≡ Never →
        OnOk result (conds.new.items ≡ conds.old.items
        ++ map (λ (one : Reading). one.cond)
        (option_list (reading tables (over_rows (sources_of tables from))) filter.now)) }
{
    match filter {
        None => Ok(()),
        Some(tree) => {
            conds.push(Builder::filtering(*rows).cond(tree)?)?;
            Ok(())
        }
    }
}

/// The items of a select list.
pub(crate) fn items(
    rows: &Scope<'_, '_, '_>,
    slots: &Option<Slots>,
    list: &SelectList<'_>,
) -> Result<Vec<Item>, OutOfMemory>
    ensures { (tables : List Table) (seen : Seen) (trees : List ItemTree) →
        Sees tables seen [] rows.now → seen.slots ≡ option_map slots_at slots.now →
        IsSelectList tables seen rows.now.sight.now trees list.now →
        IfOk result (λ items. items.items ≡ map query_item (selected tables seen trees)) }
{
    let builder = Builder {
        scope: *rows,
        stage: Stage::Answer {
            slots: slots.as_ref(),
            items: &[],
        },
    };
    let mut items = Vec::with_capacity(rows.alloc, list.count)?;
    for part in &list.parts {
        builder.put_part(part, &mut items)?;
    }
    Ok(items)
}

impl Builder<'_, '_, '_, '_> {
    /// The items of a part of the select list.
    fn put_part(&self, part: &Part<'_>, items: &mut Vec<Item>) -> Result<(), OutOfMemory>
        ensures { (tables : List Table) (seen : Seen) (first : ℕ) (tree : ItemTree) →
            Sees tables seen [] self.now.scope → IsLast seen [] self.now.stage →
            IsPart tables seen self.now.scope.sight.now first part.now tree →
            OnOk result (items.new.items ≡ items.old.items
            ++ map query_item (items_at tables seen tree.place tree.item)) }
    {
        match &part.chosen {
            Chosen::Columns(run) => self.put_columns(*run, items),
            Chosen::Value(value) => {
                items.push(self.value(value)?)?;
                Ok(())
            }
        }
    }

    /// The items of a star.
    fn put_columns(&self, run: Run, items: &mut Vec<Item>) -> Result<(), OutOfMemory>
        ensures { (tables : List Table) (seen : Seen) (place : ℕ) → IsLast seen [] self.now.stage →
            OnOk result (items.new.items ≡ items.old.items
            ++ map (star_item tables seen self.now.scope.sight.now place)
            (columns_in self.now.scope.sight.now run)) }
    {
        for column in run.of(self.scope.sight.columns.as_slice()) {
            items.push(self.starred(*column)?)?;
        }
        Ok(())
    }

    /// The item that a column of a star is.
    fn starred(&self, column: Column) -> Result<Item, OutOfMemory>
        ensures { (tables : List Table) (seen : Seen) (place : ℕ) → IsLast seen [] self.now.stage →
            IfOk result
            (λ item. item ≡ star_item tables seen self.now.scope.sight.now place column) }
    {
        let name = self.scope.sight.name(column);
        Ok(Item {
            name: Text::from_str(self.scope.alloc, name)?,
            value: self.column(column)?,
        })
    }

    /// An item that is an expression.
    fn value(&self, value: &Valued<'_>) -> Result<Item, OutOfMemory>
        ensures { (tables : List Table) (seen : Seen) (one : Selected) →
            Sees tables seen [] self.now.scope → IsLast seen [] self.now.stage →
            IsValued tables seen self.now.scope.sight.now value.now one →
            IfOk result (λ item. item ≡ query_item one) }
    {
        Ok(Item {
            name: self.name_of(value.tree, value.alias)?,
            value: self.expr(value.tree)?,
        })
    }

    /// The name of an item that is an expression.
    fn name_of(&self, tree: &ExprTree, alias: Option<&NameTree>) -> Result<Text, OutOfMemory>
        ensures { IfOk result
            (λ name. name ≡ item_name tree.now (option_map (λ tree. tree.now) alias.entry)) }
    {
        match alias {
            Some(alias) => alias.name.copy(self.scope.alloc),
            None => self.called(tree),
        }
    }

    /// What an expression is called: a column by its name, all else by its canonical text.
    fn called(&self, tree: &ExprTree) -> Result<Text, OutOfMemory>
        ensures { IfOk result (λ name. name ≡ name_of_expr tree.now) }
    {
        match &tree.node {
            ExprNode::Name { column, .. } => column.copy(self.scope.alloc),
            _ => expr_text(self.scope.alloc, tree),
        }
    }

    /// The keys of ORDER BY.
    pub(crate) fn keys(&self, trees: &[OrderTree]) -> Result<Vec<OrderKey>, OutOfMemory>
        ensures { (tables : List Table) (scope : Seen) (listed : List Selected) →
            Sees tables scope listed self.now.scope → IsLast scope listed self.now.stage →
            IfOk result (λ keys. keys.items
            ≡ map (λ (tree : OrderTree). order_key tree (placed tables scope listed tree.value))
            trees.now) }
    {
        let mut keys = Vec::with_capacity(self.scope.alloc, trees.len())?;
        for tree in trees {
            keys.push(OrderKey {
                value: self.ordered(&tree.value)?,
                down: tree.down,
            })?;
        }
        Ok(keys)
    }
}
