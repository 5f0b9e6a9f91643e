ghost use Rattle.std.specs.Prelude.{◌≡◌, IfOk, OnOk};
ghost use Rattle.serde_json.specs.Data.{object, put as with_member, no_members};
ghost use Rattle.serde_json.specs.View.{view, members_view};
ghost use Rattle.sa_explain.specs.Access.{kind_name};
ghost use Rattle.sa_explain.specs.Document.{level_data, with_condition};

use crate::access::put_access;
use crate::condition::conditions_text;
use crate::counted::put_counters;
use sa_cond::Cond;
use sa_count::Counters;
use sa_plan::{AccessKind, Level, Names};
use sa_value::OutOfMemory;
use serde_json::{Map, Value as Json, put};
use std::alloc::{AllocError, Global};

/// A level of a plan, with what was counted of it, if it was.
pub(crate) fn level_json(
    alloc: Global,
    names: &Names,
    levels: &[Level],
    level: &Level,
    counters: Option<Counters>,
) -> Result<Json, OutOfMemory>
    ensures { IfOk result (λ json. view json ≡ level_data names.now levels.now level.now counters) }
{
    let mut members = Map::new(alloc);
    let alias = Json::try_from_str(alloc, level.alias.as_str())?;
    put(&mut members, alloc, "table_name", alias)?;
    put(&mut members, alloc, "rows", Json::from(level.estimate))?;
    let kind = Json::try_from_str(alloc, kind_name(level.access.kind()))?;
    put(&mut members, alloc, "access_type", kind)?;
    put_access(
        alloc,
        &mut members,
        names,
        levels,
        level.table,
        &level.access,
    )?;
    put_conditions(
        alloc,
        &mut members,
        names,
        levels,
        level.conditions.as_slice(),
    )?;
    put_counters(alloc, &mut members, counters)?;
    Ok(object_of(alloc, "table", Json::from(members))?)
}

/// An object of one member.
pub(crate) fn object_of(alloc: Global, key: &str, value: Json) -> Result<Json, AllocError>
    ensures { IfOk result (λ json. view json ≡ object (with_member key.now (view value) no_members)) }
{
    let mut members = Map::new(alloc);
    put(&mut members, alloc, key, value)?;
    Ok(Json::from(members))
}

/// Puts the conditions of a level, if it has any.
fn put_conditions(
    alloc: Global,
    members: &mut Map<String, Json>,
    names: &Names,
    levels: &[Level],
    conditions: &[Cond],
) -> Result<(), OutOfMemory>
    ensures { OnOk result (members_view members.new.entries
        ≡ with_condition names.now levels.now conditions.now (members_view members.old.entries)) }
{
    match conditions {
        [] => Ok(()),
        [first, rest @ ..] => {
            let text = conditions_text(alloc, names, levels, first, rest)?;
            Ok(put(members, alloc, "attached_condition", Json::from(text))?)
        }
    }
}

/// How a kind of access is called.
fn kind_name(kind: AccessKind) -> &'static str
    ensures { result.now ≡ kind_name kind }
{
    match kind {
        AccessKind::All => "ALL",
        AccessKind::Index => "index",
        AccessKind::Range => "range",
        AccessKind::Ref => "ref",
        AccessKind::EqRef => "eq_ref",
        AccessKind::Const => "const",
    }
}
