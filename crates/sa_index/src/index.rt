ghost use Rattle.std.specs.Prelude.{◌≡◌, ◌<◌, ◌≤◌, length, IfOk, Some, slice_get};
ghost use Rattle.sa_table.specs.Table.{row_count};
ghost use Rattle.sa_key.specs.Cut.{cut_at};
ghost use Rattle.sa_index.specs.Indexed.{Indexed, IsKeyOf, key_parts};
ghost use Rattle.sa_index.specs.Entries.{entries_of, count_before, distinct_prefixes};

use sa_key::CutRef;
use sa_table::Tables;
use sa_value::OutOfMemory;
use std::alloc::Global;

/// The rows of a table in the order of a key, those with equal tuples by their numbers. Each row is
/// an entry, and entries are named by their positions, from 0 on.
///
/// Source: MariaDB Knowledge Base, "Getting Started with Indexes".
pub trait Index: Drop {
    /// The tables, the table and the key that it is an index of.
    ghost indexed: { Self → Indexed };

    /// The index of a key, over the rows that its table has now. It takes memory from `alloc`.
    fn build(alloc: Global, tables: &Tables, table: u32, key: u32) -> Result<Self, OutOfMemory>
        requires there { IsKeyOf tables.now table key }
        ensures { IfOk result
            (λ index. indexed index ≡ record { tables = tables.now; table = table; key = key }) };

    /// How many entries there are.
    fn count(&self) -> u32
        ensures { let index = indexed self.now in result ≡ row_count index.tables index.table };

    /// The row of an entry.
    fn at(&self, position: u32) -> u32
        requires there { let index = indexed self.now in
            position < row_count index.tables index.table }
        ensures { slice_get (entries_of (indexed self.now)) position ≡ Some result };

    /// How many entries lie before a cut, which is no longer than the key. The tables are those
    /// that the index was built over.
    fn lower(&self, tables: &Tables, cut: &CutRef<'_>) -> u32
        requires same { tables.now ≡ (indexed self.now).tables }
        requires fits { length cut.now.tuple ≤ length (key_parts (indexed self.now)) }
        ensures { result ≡ count_before (indexed self.now) (cut_at cut.now) };

    /// How many different values the first so many parts of the key have together, NULL being a
    /// value.
    fn distinct(&self, parts: u32) -> u32
        requires fits { parts ≤ length (key_parts (indexed self.now)) }
        ensures { result ≡ distinct_prefixes (indexed self.now) parts };
}
