ghost use Rattle.std.specs.Prelude.{◌≡◌, ◌<◌, length, Some, IfOk, IfErr};
ghost use Rattle.sa_table.specs.Create.{same_name};
ghost use Rattle.sa_script.specs.Named as named;
ghost use Rattle.sa_script.specs.Named.{IsUnknown};
ghost use Rattle.sa_script.specs.inner.Tells.{Tells};

use crate::fault::{ScriptFault, ScriptKind};
use sa_ast::NameTree;
use sa_table::Tables;

/// Whether two names are the same, byte for byte.
pub(crate) fn is_same(a: &str, b: &str) -> bool
    ensures { result ≡ same_name a.now b.now }
{
    a == b
}

/// The number of the table with this name.
pub(crate) fn table_named(tables: &Tables, name: &NameTree) -> Result<u32, ScriptFault>
    ensures there { IfOk result (λ table. table < length tables.now) }
    ensures named { IfOk result (λ table. named.table_named tables.now name.now.name ≡ Some table) }
    ensures fault { IfErr result (Tells (IsUnknown tables.now name.now)) }
{
    let Some(table) = tables.find(name.name.as_str()) else {
        return Err(ScriptFault::at(ScriptKind::UnknownTable, name.place));
    };
    // No two tables have one name, as `len` knows of all of them.
    let there = table < tables.len();
    prove!(there);
    Ok(table)
}
