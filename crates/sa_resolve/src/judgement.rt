ghost use Rattle.std.specs.Prelude.{◌≡◌, List, map, Option, option_map, false, ℕ};
ghost use Rattle.std.specs.List.{flat_map};
ghost use Rattle.sa_ast.specs.declared.select.GroupTree.{GroupTree};
ghost use Rattle.sa_ast.specs.declared.select.OrderTree.{OrderTree};
ghost use Rattle.sa_ast.specs.declared.select.ItemTree.{ItemTree};
ghost use Rattle.sa_ast.specs.declared.select.SelectTree.{SelectTree};
ghost use Rattle.sa_table.specs.Table.{Table};
ghost use Rattle.sa_query.specs.declared.refusal.ResolveKind.TheVariants.{TooManyConstants, TooManyItems};
ghost use Rattle.sa_resolve.specs.declared.sight.Sight.{Sight};
ghost use Rattle.sa_resolve.specs.Clauses.{Clauses, clauses_with, slots_of};
ghost use Rattle.sa_resolve.specs.Expression.{Scope};
ghost use Rattle.sa_resolve.specs.Fault.{least};
ghost use Rattle.sa_resolve.specs.Faults.{filter_faults, group_faults, group_item_faults, having_faults, list_faults, order_faults, own_faults, too_many};
ghost use Rattle.sa_resolve.specs.Node.{Slots as Found};
ghost use Rattle.sa_resolve.specs.Reading.{Reading};
ghost use Rattle.sa_resolve.specs.Selected.{Selected, items_at};
ghost use Rattle.sa_resolve.specs.inner.Building.{slots_at};
ghost use Rattle.sa_resolve.specs.inner.Knowing.{AreKnown, AreLooked, filters_faults};
ghost use Rattle.sa_resolve.specs.inner.Least.{fault_of};
ghost use Rattle.sa_resolve.specs.inner.Listing.{IsPart};
ghost use Rattle.sa_resolve.specs.inner.Looking.{IsLooked};

use crate::clauses::Clauses as Known;
use crate::grouping::{loose_fault, loose_star};
use crate::least::{Fault, sooner, told};
use crate::look::Looked;
use crate::select::{Chosen, Part};
use crate::slots::Slots;
use sa_ast::{GroupTree, OrderTree};
use sa_query::{Column, ResolveKind};

/// How many literals ON and WHERE have at most.
const MOST_CONSTANTS: usize = 1024;

/// How many items GROUP BY and ORDER BY have at most.
const MOST_KEYS: usize = 8;

impl Known<'_, '_> {
    /// WHERE and ON are conditions without aggregates, and have 1,024 literals at most.
    pub(crate) fn filter_fault(&self) -> Option<Fault>
        ensures { (tables : List Table) (tree : SelectTree) (found : Option Found) (sight : Sight) →
            AreKnown tables tree found sight self.now →
            fault_of result ≡ least (filters_faults (clauses_with tables tree found)) }
    {
        let mut fault = self.constant_fault();
        for one in &self.filters {
            fault = sooner(fault, filter_fault(one));
        }
        fault
    }

    /// The 1,025th literal of ON and WHERE is one too many.
    fn constant_fault(&self) -> Option<Fault>
        ensures { (ones : List Reading) → AreLooked self.now.filters.items ones →
            fault_of result ≡ least (too_many TooManyConstants 1024
            (flat_map (λ (one : Reading). one.literals) ones)) }
    {
        let mut left = MOST_CONSTANTS;
        for one in &self.filters {
            match one.literals.get(left) {
                None => left -= one.literals.len(),
                Some(place) => return told(true, ResolveKind::TooManyConstants, *place),
            }
        }
        None
    }

    /// The items of the select list are values, and 64 at most. `columns` are those of all tables.
    pub(crate) fn select_fault(&self, slots: &Option<Slots>, columns: &[Column]) -> Option<Fault>
        ensures { (tables : List Table) (tree : SelectTree) (found : Option Found) (sight : Sight) →
            AreKnown tables tree found sight self.now →
            option_map slots_at slots.now ≡ slots_of (clauses_with tables tree found) →
            columns.now ≡ sight.columns.items →
            fault_of result ≡ least (list_faults tables tree (clauses_with tables tree found)) }
    {
        let mut fault = self.select.fault;
        for part in &self.select.parts {
            fault = sooner(fault, part_fault(slots, columns, part));
        }
        fault
    }

    /// An item of GROUP BY is a column, and nothing else; there are 8 at most.
    pub(crate) fn group_fault(&self, trees: &[GroupTree]) -> Option<Fault>
        ensures { (tables : List Table) (tree : SelectTree) (found : Option Found) (sight : Sight) →
            AreKnown tables tree found sight self.now →
            trees.now ≡ tree.group →
            fault_of result ≡ least (group_faults (clauses_with tables tree found) trees.now) }
    {
        let mut fault = many_groups(trees);
        for (tree, one) in trees.iter().zip(&self.group) {
            fault = sooner(fault, group_item_fault(tree, one));
        }
        fault
    }

    /// HAVING is a condition, in a SELECT that groups.
    pub(crate) fn having_fault(&self, slots: &Option<Slots>, place: usize) -> Option<Fault>
        ensures { (tables : List Table) (tree : SelectTree) (found : Option Found) (sight : Sight) →
            AreKnown tables tree found sight self.now →
            option_map slots_at slots.now ≡ slots_of (clauses_with tables tree found) →
            fault_of result ≡ least (having_faults (clauses_with tables tree found) place) }
    {
        let one = self.having.as_ref()?;
        let own = sooner(one.facts.fault, one.facts.condition_fault());
        let loose = loose_fault(slots, &one.loose);
        let alone = told(slots.is_none(), ResolveKind::GroupRule, place);
        sooner(own, sooner(loose, alone))
    }

    /// The items of ORDER BY are values, and 8 at most.
    pub(crate) fn order_fault(&self, slots: &Option<Slots>, trees: &[OrderTree]) -> Option<Fault>
        ensures { (tables : List Table) (tree : SelectTree) (found : Option Found) (sight : Sight) →
            AreKnown tables tree found sight self.now →
            option_map slots_at slots.now ≡ slots_of (clauses_with tables tree found) →
            trees.now ≡ tree.order → fault_of result
            ≡ least (order_faults (clauses_with tables tree found) false false trees.now) }
    {
        let mut fault = many_keys(trees);
        for one in &self.order {
            fault = sooner(fault, own_fault(slots, one));
        }
        fault
    }
}

/// WHERE and ON are conditions without aggregates.
fn filter_fault(one: &Looked) -> Option<Fault>
    ensures { (item : Reading) → IsLooked one.now item →
        fault_of result ≡ least (filter_faults item) }
{
    let facts = &one.facts;
    let own = sooner(facts.fault, facts.condition_fault());
    sooner(own, facts.aggregate_fault())
}

/// An item of GROUP BY is a column, and nothing else.
fn group_item_fault(tree: &GroupTree, one: &Looked) -> Option<Fault>
    ensures { (clauses : Clauses) (item : Reading) → IsLooked one.now item →
        fault_of result ≡ least (group_item_faults clauses (tree.now, item)) }
{
    let facts = &one.facts;
    let own = sooner(facts.fault, facts.value_fault());
    let is_other = facts.column.is_none();
    let other = told(is_other, ResolveKind::GroupRule, tree.place);
    sooner(sooner(own, facts.aggregate_fault()), other)
}

/// Of more items of GROUP BY than there may be the first too many.
fn many_groups(trees: &[GroupTree]) -> Option<Fault>
    ensures { fault_of result ≡ least
        (too_many TooManyItems 8 (map (λ (tree : GroupTree). tree.place) trees.now)) }
{
    match trees.get(MOST_KEYS) {
        None => None,
        Some(tree) => told(true, ResolveKind::TooManyItems, tree.place),
    }
}

/// The same of ORDER BY.
fn many_keys(trees: &[OrderTree]) -> Option<Fault>
    ensures { fault_of result ≡ least
        (too_many TooManyItems 8 (map (λ (tree : OrderTree). tree.place) trees.now)) }
{
    match trees.get(MOST_KEYS) {
        None => None,
        Some(tree) => told(true, ResolveKind::TooManyItems, tree.place),
    }
}

/// What is wrong with an item of ORDER BY in itself.
pub(crate) fn own_fault(slots: &Option<Slots>, one: &Looked) -> Option<Fault>
    ensures { (clauses : Clauses) (item : Reading) →
        option_map slots_at slots.now ≡ slots_of clauses → IsLooked one.now item →
        fault_of result ≡ least (own_faults clauses item) }
{
    let own = sooner(one.facts.fault, one.facts.value_fault());
    sooner(own, loose_fault(slots, &one.loose))
}

/// What is wrong with the items of a part of the select list in themselves.
fn part_fault(slots: &Option<Slots>, columns: &[Column], part: &Part<'_>) -> Option<Fault>
    ensures { (clauses : Clauses) (tables : List Table) (scope : Scope) (sight : Sight)
        (first : ℕ) (tree : ItemTree) → option_map slots_at slots.now ≡ slots_of clauses →
        columns.now ≡ sight.columns.items → IsPart tables scope sight first part.now tree →
        fault_of result ≡ least (flat_map (λ (one : Selected). own_faults clauses one.item)
        (items_at tables scope tree.place tree.item)) }
{
    match &part.chosen {
        Chosen::Value(value) => own_fault(slots, &value.looked),
        Chosen::Columns(run) => loose_star(slots, run.of(columns), part.place),
    }
}
