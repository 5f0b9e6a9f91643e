ghost use Rattle.std.specs.Prelude.{◌≡◌, ◌<◌, ◌≤◌, [], length, All, Option, IfOk, OnOk, true, vec_len};
ghost use Rattle.std.specs.List.{position};
ghost use Rattle.sa_table.specs.AddRow.{collides, key_faults};
ghost use Rattle.sa_table.specs.Table.{is_unique, key_tuple};
ghost use Rattle.sa_table.specs.inner.First.{first};
ghost use Rattle.sa_table.specs.inner.Store.{rows_in, Fills};
ghost use Rattle.sa_table.specs.inner.Column.{IsRanged};
ghost use Rattle.sa_table.specs.inner.Digest.{digest_of};
ghost use Rattle.sa_table.specs.inner.Index.{AddsDigest, HasSpace, SameIndex};
ghost use Rattle.sa_table.specs.inner.Keys.{IsIndexed, AreIndexed, IsSearchable, SameIndexes, HaveSpace, AddDigests};

use crate::def::KeyDef;
use crate::digest::digest_of;
use crate::fault::RowFault;
use crate::index::Index;
use crate::store::Store;
use sa_value::{OutOfMemory, Value};
use std::alloc::Global;

/// Whether rows have different values in a key.
pub(crate) fn is_unique(key: &KeyDef) -> bool
    ensures { result ≡ is_unique key.now }
{
    key.unique || key.primary
}

/// The row that has the same values in a unique key, none of them NULL.
fn equal_row(store: &Store, key: &KeyDef, index: &Index, row: &[Value]) -> Option<u32>
    requires unique { is_unique key.now ≡ true }
    requires searchable { IsSearchable store.now key.now row.now }
    requires indexed { IsIndexed (rows_in store.now) key.now index.now }
    ensures { result ≡ position (collides key.now row.now) (rows_in store.now) }
{
    let parts = key.parts.as_slice();
    let digest = digest_of(parts, row)?;
    let mut bound = index.last(digest);
    while bound > 0 {
        let other = bound - 1;
        if store.has_equal(parts, row, other) {
            return Some(other);
        }
        bound = index.before(other);
    }
    None
}

/// The first fault of a row in the unique keys.
pub(crate) fn key_fault(
    store: &Store,
    keys: &[KeyDef],
    indexes: &[Index],
    row: &[Value],
) -> Option<RowFault>
    requires searchable { All
        (λ key. is_unique key ≡ true → IsSearchable store.now key row.now) keys.now }
    requires indexed { AreIndexed (rows_in store.now) keys.now indexes.now }
    ensures { result ≡ first (key_faults keys.now (rows_in store.now) row.now) }
{
    for (number, key) in keys.iter().enumerate() {
        if is_unique(key) {
            if let Some(row) = equal_row(store, key, &indexes[number], row) {
                return Some(RowFault::DuplicateKey { row });
            }
        }
    }
    None
}

/// An index of no rows for each key.
pub(crate) fn empty_indexes(alloc: Global, keys: &[KeyDef]) -> Result<Vec<Index>, OutOfMemory>
    ensures { IfOk result (λ indexes. AreIndexed [] keys.now indexes.items) }
{
    let mut indexes = Vec::with_capacity(alloc, keys.len())?;
    for _key in keys {
        indexes.push(Index::new(alloc))?;
    }
    Ok(indexes)
}

/// Room in the indexes for one row more.
pub(crate) fn reserve_indexes(indexes: &mut [Index], keys: &[KeyDef]) -> Result<(), OutOfMemory>
    requires { length indexes.old ≡ length keys.now }
    ensures same { SameIndexes indexes.old indexes.new }
    ensures room { OnOk result (HaveSpace keys.now indexes.new) }
{
    for (number, key) in keys.iter().enumerate() {
        reserve_index(&mut indexes[number], key)?;
    }
    Ok(())
}

fn reserve_index(index: &mut Index, key: &KeyDef) -> Result<(), OutOfMemory>
    ensures same { SameIndex index.old index.new }
    ensures room { OnOk result (is_unique key.now ≡ true → HasSpace index.new) }
{
    if is_unique(key) {
        index.reserve()
    } else {
        Ok(())
    }
}

/// Puts a row at the end of the indexes.
pub(crate) fn push_digests(indexes: &mut [Index], keys: &[KeyDef], row: &[Value], number: u32)
    requires each_one { length indexes.old ≡ length keys.now }
    requires room { HaveSpace keys.now indexes.old }
    requires few { number < 1000000 }
    requires parts { All (λ key. All (λ part. part < length row.now) key.parts) keys.now }
    requires ranged { All IsRanged row.now }
    ensures { AddDigests keys.now row.now number indexes.old indexes.new }
{
    for (position, key) in keys.iter().enumerate() {
        push_digest(&mut indexes[position], key, row, number);
    }
}

fn push_digest(index: &mut Index, key: &KeyDef, row: &[Value], number: u32)
    requires room { is_unique key.now ≡ true → HasSpace index.old }
    requires few { number < 1000000 }
    requires parts { All (λ part. part < length row.now) key.now.parts }
    requires ranged { All IsRanged row.now }
    ensures { is_unique key.now ≡ true
        → AddsDigest index.old index.new number (digest_of (key_tuple key.now.parts row.now)) }
{
    if is_unique(key) {
        index.push(number, digest_of(key.parts.as_slice(), row));
    }
}
