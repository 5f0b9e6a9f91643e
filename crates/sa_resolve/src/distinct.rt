ghost use Rattle.std.specs.Prelude.{◌≡◌, ◌&&◌, not, List, map, option_map, is_some, IfOk, IfSome};
ghost use Rattle.std.specs.List.{flat_map, list_any, zip};
ghost use Rattle.sa_ast.specs.declared.select.OrderTree.{OrderTree};
ghost use Rattle.sa_table.specs.Table.{Table};
ghost use Rattle.sa_query.specs.declared.item.Item.{Item};
ghost use Rattle.sa_resolve.specs.Clauses.{Clauses, slots_of};
ghost use Rattle.sa_resolve.specs.Expression.{Scope};
ghost use Rattle.sa_resolve.specs.Fault.{least};
ghost use Rattle.sa_resolve.specs.Faults.{distinct_faults, is_selected};
ghost use Rattle.sa_resolve.specs.Reading.{Reading};
ghost use Rattle.sa_resolve.specs.Resolved.{query_item};
ghost use Rattle.sa_resolve.specs.Same.{same_expr};
ghost use Rattle.sa_resolve.specs.inner.Building.{IsLast, placed, slots_at};
ghost use Rattle.sa_resolve.specs.inner.Knowing.{AreLooked};
ghost use Rattle.sa_resolve.specs.inner.Least.{fault_of};
ghost use Rattle.sa_resolve.specs.inner.Looking.{IsLooked};
ghost use Rattle.sa_resolve.specs.inner.Names.{Sees};

use crate::build::Builder;
use crate::judgement::own_fault;
use crate::least::{Fault, sooner, told};
use crate::look::Looked;
use crate::slots::{Slots, same_expr};
use sa_ast::OrderTree;
use sa_cond::Expr;
use sa_query::{Item, ResolveKind};
use sa_value::OutOfMemory;

/// With DISTINCT each item of ORDER BY is right and is an item of the select list. They are compared where
/// the select list is right: there are no items otherwise.
pub(crate) fn distinct_fault(
    builder: &Builder<'_, '_, '_, '_>,
    slots: &Option<Slots>,
    items: Option<&[Item]>,
    trees: &[OrderTree],
    order: &[Looked],
) -> Result<Option<Fault>, OutOfMemory>
    ensures { (clauses : Clauses) (tables : List Table) (scope : Scope) →
        option_map slots_at slots.now ≡ slots_of clauses →
        Sees tables scope clauses.select builder.now.scope →
        IfSome items.entry (λ _. IsLast scope clauses.select builder.now.stage) →
        IfSome items.entry (λ values. map query_item clauses.select ≡ values.now) →
        clauses.order ≡ map (λ (tree : OrderTree). placed tables scope clauses.select tree.value)
        trees.now →
        AreLooked order.now clauses.order →
        IfOk result (λ fault. fault_of fault ≡ least (flat_map
        (distinct_faults clauses (is_some items.entry)) (zip trees.now clauses.order))) }
{
    let mut fault = None;
    for (tree, one) in trees.iter().zip(order) {
        fault = sooner(fault, item_fault(builder, slots, items, tree, one)?);
    }
    Ok(fault)
}

/// Whether an item of ORDER BY is none of the select list.
fn is_other(
    builder: &Builder<'_, '_, '_, '_>,
    items: Option<&[Item]>,
    tree: &OrderTree,
) -> Result<bool, OutOfMemory>
    ensures { (clauses : Clauses) (tables : List Table) (scope : Scope) (one : Reading) →
        Sees tables scope clauses.select builder.now.scope →
        IfSome items.entry (λ _. IsLast scope clauses.select builder.now.stage) →
        IfSome items.entry (λ values. map query_item clauses.select ≡ values.now) →
        one ≡ placed tables scope clauses.select tree.now.value →
        IfOk result (λ is_other. is_other ≡ (is_some items.entry && not (is_selected clauses one))) }
{
    let Some(items) = items else {
        return Ok(false);
    };
    let value = builder.ordered(&tree.value)?;
    Ok(!has_value(items, &value))
}

/// Whether an item has this value.
fn has_value(items: &[Item], value: &Expr) -> bool
    ensures { result ≡ list_any (λ (item : Item). same_expr item.value value.now) items.now }
{
    items.iter().any(|item| same_expr(&item.value, value))
}

/// What DISTINCT says of an item of ORDER BY.
fn item_fault(
    builder: &Builder<'_, '_, '_, '_>,
    slots: &Option<Slots>,
    items: Option<&[Item]>,
    tree: &OrderTree,
    one: &Looked,
) -> Result<Option<Fault>, OutOfMemory>
    ensures { (clauses : Clauses) (tables : List Table) (scope : Scope) (item : Reading) →
        option_map slots_at slots.now ≡ slots_of clauses →
        Sees tables scope clauses.select builder.now.scope →
        IfSome items.entry (λ _. IsLast scope clauses.select builder.now.stage) →
        IfSome items.entry (λ values. map query_item clauses.select ≡ values.now) →
        item ≡ placed tables scope clauses.select tree.now.value →
        IsLooked one.now item →
        IfOk result (λ fault. fault_of fault
        ≡ least (distinct_faults clauses (is_some items.entry) (tree.now, item))) }
{
    if own_fault(slots, one).is_some() {
        return Ok(told(true, ResolveKind::GroupRule, tree.place));
    }
    let is_other = is_other(builder, items, tree)?;
    Ok(told(is_other, ResolveKind::GroupRule, tree.place))
}
