//! What an access reads by, as members of a document.
ghost use Rattle.std.specs.Prelude.{◌≡◌, [], IfOk, OnOk, map};
ghost use Rattle.serde_json.specs.Data.{array};
ghost use Rattle.serde_json.specs.View.{view, items_of, members_view};
ghost use Rattle.sa_print.specs.Expression.{canonical_expr};
ghost use Rattle.sa_plan.specs.Lawful.{expr_of};
ghost use Rattle.sa_plan.specs.declared.access.Access.TheVariants as accesses;
ghost use Rattle.sa_explain.specs.Access.{cut_data, range_data, side_name, sought_data};
ghost use Rattle.sa_explain.specs.Access.{with_access, with_key, with_sought};
ghost use Rattle.sa_explain.specs.Written.{expr_text as text_of};

use crate::leaf::{column_tree, literal_tree};
use crate::value::values_json;
use sa_ast::ExprTree;
use sa_interval::RangeList;
use sa_key::{Cut, KeyRange, Side};
use sa_plan::{Access, Level, Names, RefPart};
use sa_print::expr_text;
use sa_value::{OutOfMemory, Text};
use serde_json::{Map, Value as Json, put};
use std::alloc::Global;

/// Puts what an access to a table reads by.
pub(crate) fn put_access(
    alloc: Global,
    members: &mut Map<String, Json>,
    names: &Names,
    levels: &[Level],
    table: u32,
    access: &Access,
) -> Result<(), OutOfMemory>
    ensures { OnOk result (members_view members.new.entries
        ≡ with_access names.now levels.now table access.now (members_view members.old.entries)) }
{
    match access {
        Access::All => Ok(()),
        Access::Index { key } => put_key(alloc, members, names, table, *key),
        Access::Range { key, list } => put_ranges(alloc, members, names, table, *key, list),
        Access::Ref { key, from } | Access::EqRef { key, from } | Access::Const { key, from } => {
            put_sought(alloc, members, names, levels, table, *key, from.as_slice())
        }
    }
}

/// Puts the name of a key.
fn put_key(
    alloc: Global,
    members: &mut Map<String, Json>,
    names: &Names,
    table: u32,
    key: u32,
) -> Result<(), OutOfMemory>
    ensures { OnOk result (members_view members.new.entries
        ≡ with_key names.now table key (members_view members.old.entries)) }
{
    let name = Json::try_from_str(alloc, names.key(table, key))?;
    Ok(put(members, alloc, "key", name)?)
}

/// Puts a key, with the ranges of it that are read.
fn put_ranges(
    alloc: Global,
    members: &mut Map<String, Json>,
    names: &Names,
    table: u32,
    key: u32,
    list: &RangeList,
) -> Result<(), OutOfMemory>
    ensures { OnOk result (members_view members.new.entries
        ≡ with_access names.now [] table (accesses.Range key list.now)
        (members_view members.old.entries)) }
{
    let ranges = ranges_json(alloc, list.ranges.as_slice())?;
    put(members, alloc, "ranges", ranges)?;
    put(members, alloc, "key_parts", Json::from(list.parts))?;
    put_key(alloc, members, names, table, key)
}

/// Puts a key, with what its first parts are sought by.
fn put_sought(
    alloc: Global,
    members: &mut Map<String, Json>,
    names: &Names,
    levels: &[Level],
    table: u32,
    key: u32,
    from: &[RefPart],
) -> Result<(), OutOfMemory>
    ensures { OnOk result (members_view members.new.entries
        ≡ with_sought names.now levels.now table key from.now (members_view members.old.entries)) }
{
    let sought = sought_json(alloc, names, levels, from)?;
    put(members, alloc, "ref", sought)?;
    put(members, alloc, "key_parts", Json::from(from.len()))?;
    put_key(alloc, members, names, table, key)
}

/// Ranges of a key, as a list.
fn ranges_json(alloc: Global, ranges: &[KeyRange]) -> Result<Json, OutOfMemory>
    ensures { IfOk result (λ json. view json ≡ array (items_of (map range_data ranges.now))) }
{
    let mut items = Vec::new(alloc);
    for range in ranges {
        items.push(range_json(alloc, range)?)?;
    }
    Ok(Json::from(items))
}

/// A range of a key: where it begins, and where it ends.
fn range_json(alloc: Global, range: &KeyRange) -> Result<Json, OutOfMemory>
    ensures { IfOk result (λ json. view json ≡ range_data range.now) }
{
    let mut members = Map::new(alloc);
    let to = cut_json(alloc, &range.to)?;
    put(&mut members, alloc, "to", to)?;
    let from = cut_json(alloc, &range.from)?;
    put(&mut members, alloc, "from", from)?;
    Ok(Json::from(members))
}

/// A cut: its values, and on which side of them it lies.
fn cut_json(alloc: Global, cut: &Cut) -> Result<Json, OutOfMemory>
    ensures { IfOk result (λ json. view json ≡ cut_data cut.now) }
{
    let mut members = Map::new(alloc);
    let values = values_json(alloc, cut.tuple.as_slice())?;
    put(&mut members, alloc, "values", values)?;
    let side = Json::try_from_str(alloc, side_name(cut.side))?;
    put(&mut members, alloc, "side", side)?;
    Ok(Json::from(members))
}

/// How the side of a cut is called.
fn side_name(side: Side) -> &'static str
    ensures { result.now ≡ side_name side }
{
    match side {
        Side::Below => "below",
        Side::Above => "above",
    }
}

/// What parts of a key are sought by, as a list.
fn sought_json(
    alloc: Global,
    names: &Names,
    levels: &[Level],
    from: &[RefPart],
) -> Result<Json, OutOfMemory>
    ensures { IfOk result (λ json. view json ≡ sought_data names.now levels.now from.now) }
{
    let mut items = Vec::new(alloc);
    for part in from {
        let text = part_text(alloc, names, levels, part)?;
        items.push(Json::from(text.into_string()))?;
    }
    Ok(Json::from(items))
}

/// What a part of a key is sought by, as a statement writes it.
fn part_text(
    alloc: Global,
    names: &Names,
    levels: &[Level],
    part: &RefPart,
) -> Result<Text, OutOfMemory>
    ensures { IfOk result (λ text. text ≡ text_of names.now levels.now (expr_of part.now)) }
{
    expr_text(alloc, &part_tree(alloc, names, levels, part)?)
}

/// What a part of a key is sought by, as a statement's expression.
fn part_tree(
    alloc: Global,
    names: &Names,
    levels: &[Level],
    part: &RefPart,
) -> Result<ExprTree, OutOfMemory>
    ensures { IfOk result (λ tree. canonical_expr tree
        ≡ text_of names.now levels.now (expr_of part.now)) }
{
    match part {
        RefPart::Literal(value) => literal_tree(alloc, value),
        RefPart::Column { table, column } => column_tree(alloc, names, levels, *table, *column),
    }
}
