ghost use Rattle.std.specs.Prelude.{◌≡◌, ◌<◌, ◌≤◌, All, length};
ghost use Rattle.sa_table.specs.Table.{column_count, row_count, table_at};
ghost use Rattle.sa_access.specs.Asked.{asked_table};
ghost use Rattle.sa_access.specs.Offered.{key_at};
ghost use Rattle.sa_access.specs.inner.Asking.{IsKeyThere, IsThere, asked_at};

use sa_query::Query;
use sa_table::{KeyDef, TableDef, Tables};

/// A query, the position of the table for which an access is chosen, and those of the tables that
/// are read before.
#[derive(Drop)]
pub(crate) struct Asking<'a> {
    pub(crate) tables: &'a Tables,
    pub(crate) query: &'a Query,
    pub(crate) earlier: &'a [u32],
    pub(crate) position: u32,
}

/// The number of the table.
pub(crate) fn asked_table(asking: &Asking<'_>) -> u32
    requires { IsThere (asked_at asking.now) }
    ensures { result ≡ asked_table (asked_at asking.now) }
{
    asking.query.tables.as_slice()[asking.position as usize].table
}

/// How many rows the table has.
pub(crate) fn row_count(asking: &Asking<'_>) -> u32
    requires { IsThere (asked_at asking.now) }
    ensures { result ≡ row_count asking.now.tables.now (asked_table (asked_at asking.now)) }
{
    asking.tables.count(asked_table(asking))
}

/// The definition of the table.
pub(crate) fn asked_def<'a>(asking: &Asking<'a>) -> &'a TableDef
    requires { IsThere (asked_at asking.now) }
    ensures { result.now
        ≡ (table_at asking.now.tables.now (asked_table (asked_at asking.now))).def }
{
    asking.tables.def(asked_table(asking))
}

/// How many keys the table has.
pub(crate) fn key_count(asking: &Asking<'_>) -> u32
    requires { IsThere (asked_at asking.now) }
    ensures { result
        ≡ length (table_at asking.now.tables.now (asked_table (asked_at asking.now))).def.keys }
{
    let _sound = asking.tables.len();
    asked_def(asking).keys.len() as u32
}

/// A key of the table.
pub(crate) fn key_at<'a>(asking: &Asking<'a>, key: u32) -> &'a KeyDef
    requires { IsKeyThere (asked_at asking.now) key }
    ensures value { result.now ≡ key_at (asked_at asking.now) key }
    ensures few { length result.now.parts ≤ 4 }
    ensures there { All (λ part. part
        < column_count asking.now.tables.now (asked_table (asked_at asking.now))) result.now.parts }
{
    let _sound = asking.tables.len();
    &asked_def(asking).keys.as_slice()[key as usize]
}
