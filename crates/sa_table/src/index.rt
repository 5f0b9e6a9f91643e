ghost use Rattle.std.specs.Prelude.{◌≡◌, ◌+◌, ◌<◌, ◌^◌, [], ℕ, nat_eq, OnOk, Option, vec_len, slice_index, unwrap_or};
ghost use Rattle.std.specs.HashMap.{get, spare, Updates};
ghost use Rattle.sa_table.specs.inner.Index.{bound_in, AddsDigest, HasSpace, SameIndex};

use sa_value::OutOfMemory;
use std::alloc::Global;
use std::collections::HashMap;

/// Finds the rows whose tuples have the same digest, the last one first.
///
/// A row is named by the number after its own, so that 0 stands for none.
#[derive(Debug, Drop)]
pub(crate) struct Index {
    /// The last row with a digest.
    last: HashMap<u64, u32>,
    /// For each row the one before it with the same digest.
    before: Vec<u32>,
}

impl Index {
    /// An index of no rows.
    pub(crate) fn new(alloc: Global) -> Index
        ensures none { (digest : ℕ) → bound_in result digest ≡ 0 }
        ensures before { result.before.items ≡ [] }
    {
        Index {
            last: HashMap::new(alloc),
            before: Vec::new(alloc),
        }
    }

    /// The number after that of the last row with this digest, or 0.
    pub(crate) fn last(&self, digest: u64) -> u32
        ensures { result ≡ bound_in self.now digest }
    {
        self.last.get(&digest).copied().unwrap_or(0)
    }

    /// The number after that of the row before this one with the same digest, or 0.
    pub(crate) fn before(&self, row: u32) -> u32
        requires { row < vec_len self.now.before }
        ensures { result ≡ slice_index self.now.before.items row }
    {
        self.before[row as usize]
    }

    /// Room for one row more.
    pub(crate) fn reserve(&mut self) -> Result<(), OutOfMemory>
        ensures same { SameIndex self.old self.new }
        ensures room { OnOk result (HasSpace self.new) }
    {
        self.before.reserve(1)?;
        self.last.reserve(1)?;
        Ok(())
    }

    /// Puts a row at the end, under the digest of its tuple; one with NULL in it has none.
    pub(crate) fn push(&mut self, row: u32, digest: Option<u64>)
        requires room { HasSpace self.old }
        requires few { row < 1000000 }
        ensures { AddsDigest self.old self.new row digest }
    {
        let before = match digest {
            Some(digest) => put_last(&mut self.last, digest, row + 1),
            None => 0,
        };
        self.before.push_reserved(before);
    }
}

/// Puts a row under a digest, and gives the one that was there.
fn put_last(last: &mut HashMap<u64, u32>, digest: u64, row: u32) -> u32
    requires { 0 < spare last.old }
    ensures was { result ≡ unwrap_or (get nat_eq last.old digest) 0 }
    ensures updates { Updates nat_eq last.old last.new digest (Some row) }
{
    match last.insert(digest, row) {
        Ok(before) => before.unwrap_or(0),
        Err(_) => unreachable!(),
    }
}
