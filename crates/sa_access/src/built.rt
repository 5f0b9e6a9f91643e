//! The access of an offer.

ghost use Rattle.std.specs.Prelude.{◌≡◌, ◌≢◌, IfOk, map};
ghost use Rattle.sa_range.specs.RangeList.{range_list};
ghost use Rattle.sa_table.specs.Table.{table_at};
ghost use Rattle.sa_plan.specs.declared.access.AccessKind.TheVariants as kinds;
ghost use Rattle.sa_access.specs.Asked.{asked_table};
ghost use Rattle.sa_access.specs.Sought.{sought_of};
ghost use Rattle.sa_access.specs.inner.Asking.{IsKeyThere, IsThere, asked_at};
ghost use Rattle.sa_access.specs.inner.Offer.{access_of};

use crate::asking::{Asking, key_at};
use crate::offer::Offer;
use crate::sought::sought_parts;
use sa_interval::RangeList;
use sa_key::KeyRanges;
use sa_plan::{Access, AccessKind, RefParts};
use sa_value::OutOfMemory;
use std::alloc::Global;

/// The access of an offer. Its ranges and texts are copies.
pub(crate) fn built(
    alloc: Global,
    asking: &Asking<'_>,
    lists: &[RangeList],
    offer: Offer,
) -> Result<Access, OutOfMemory>
    requires there { offer.kind ≢ kinds.All → IsKeyThere (asked_at asking.now) offer.key }
    requires lists { lists.now ≡ map
        (λ key. range_list asking.now.query.now.filter asking.now.position key.parts)
        (table_at asking.now.tables.now (asked_table (asked_at asking.now))).def.keys }
    ensures { IfOk result
        (λ access. access ≡ access_of (asked_at asking.now) offer.kind offer.key) }
{
    let key = offer.key;
    match offer.kind {
        AccessKind::All => Ok(Access::All),
        AccessKind::Index => Ok(Access::Index { key }),
        AccessKind::Range => Ok(Access::Range {
            key,
            list: copied(alloc, &lists[key as usize])?,
        }),
        AccessKind::Ref => Ok(Access::Ref {
            key,
            from: parts_of(alloc, asking, key)?,
        }),
        AccessKind::EqRef => Ok(Access::EqRef {
            key,
            from: parts_of(alloc, asking, key)?,
        }),
        AccessKind::Const => Ok(Access::Const {
            key,
            from: parts_of(alloc, asking, key)?,
        }),
    }
}

/// What the first parts of a key are sought by.
fn parts_of(alloc: Global, asking: &Asking<'_>, key: u32) -> Result<RefParts, OutOfMemory>
    requires { IsKeyThere (asked_at asking.now) key }
    ensures { IfOk result (λ parts. parts ≡ sought_of (asked_at asking.now) key) }
{
    sought_parts(alloc, asking, key_at(asking, key).parts.as_slice())
}

/// An equal list, whose texts take memory from `alloc`.
fn copied(alloc: Global, list: &RangeList) -> Result<RangeList, OutOfMemory>
    ensures { IfOk result (λ copy. copy ≡ list.now) }
{
    let mut ranges = KeyRanges::new(alloc);
    for range in list.ranges.as_slice() {
        ranges.push(range.copy(alloc)?)?;
    }
    let parts = list.parts;
    Ok(RangeList { parts, ranges })
}
