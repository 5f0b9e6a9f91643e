//! The index of a key of the first table. What its calls ask for is checked here.

ghost use Rattle.std.specs.Prelude.{◌≡◌, IfOk};
ghost use Rattle.sa_index.specs.Indexed.{parts_of, key_parts};

use sa_index::{Index, ListIndex};
use sa_key::CutRef;
use sa_table::Tables;
use sa_value::OutOfMemory;
use std::alloc::Global;
use std::process::Abort;

/// The index of a key, over the rows that the table has.
pub(crate) fn built(
    rt: &impl Abort,
    alloc: Global,
    tables: &Tables,
    key: u32,
) -> Result<ListIndex, OutOfMemory>
    ensures { IfOk result
        (λ index. index ≡ record { tables = tables.now; table = 0; key = key }) }
{
    assert!(rt; 0 < tables.len());
    assert!(rt; (key as usize) < tables.def(0).keys.len());
    ListIndex::build(alloc, tables, 0, key)
}

/// The columns of a key.
pub(crate) fn parts_of<'a>(rt: &impl Abort, tables: &'a Tables, key: u32) -> &'a [u32]
    ensures { result.now ≡ parts_of tables.now 0 key }
{
    assert!(rt; 0 < tables.len());
    assert!(rt; (key as usize) < tables.def(0).keys.len());
    tables.def(0).keys.as_slice()[key as usize].parts.as_slice()
}

/// The row of an entry.
pub(crate) fn at(rt: &impl Abort, index: &ListIndex, position: u32) -> u32 {
    assert!(rt; position < index.count());
    index.at(position)
}

/// How many entries lie before a cut.
pub(crate) fn lower(
    rt: &impl Abort,
    index: &ListIndex,
    tables: &Tables,
    parts: &[u32],
    cut: &CutRef<'_>,
) -> u32
    requires same { tables.now ≡ index.now.tables }
    requires parts { parts.now ≡ key_parts index.now }
{
    assert!(rt; cut.tuple.len() <= parts.len());
    index.lower(tables, cut)
}

/// How many different values the first so many parts have together.
pub(crate) fn distinct(rt: &impl Abort, index: &ListIndex, parts: &[u32], count: u32) -> u32
    requires { parts.now ≡ key_parts index.now }
{
    assert!(rt; (count as usize) <= parts.len());
    index.distinct(count)
}
