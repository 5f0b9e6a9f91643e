ghost use Rattle.std.specs.Prelude.{◌≡◌, [], map, slice_index_or, IfOk};
ghost use Rattle.sa_table.specs.declared.def.ColumnDef.{ColumnDef as column_def};
ghost use Rattle.sa_table.specs.declared.def.KeyDef.{KeyDef as key_def};
ghost use Rattle.sa_plan.specs.Names.{names_of, column_name, key_name, table_names};

use sa_table::{ColumnDef, KeyDef, TableDef, Tables};
use sa_value::{OutOfMemory, Sequence, Text, Texts};
use std::alloc::Global;
use std::marker::Model;

/// The names of all tables' columns and keys, by which a document tells a plan.
#[derive(Debug, Drop)]
pub struct Names {
    tables: Sequence<TableNames>,
}

/// The names of a table's columns and of its keys, each by its number.
#[derive(Debug, Drop)]
pub struct TableNames {
    pub columns: Texts,
    pub keys: Texts,
}

impl Model for Names {
    ghost use Rattle.std.specs.Prelude.{List};
    ghost use Rattle.sa_plan.specs.declared.names.TableNames.{TableNames as table};

    ghost Value = { List table };

    ghost view = { λ names. names.tables };
}

impl Names {
    /// The names in these tables' definitions.
    pub fn of(alloc: Global, tables: &Tables) -> Result<Names, OutOfMemory>
        ensures { IfOk result (λ names. names ≡ names_of tables.now) }
    {
        let mut names = Vec::new(alloc);
        for table in 0..tables.len() {
            names.push(table_names(alloc, tables.def(table))?)?;
        }
        Ok(Names {
            tables: Sequence::from_vec(names),
        })
    }

    /// The name of a table's column; empty where there is none.
    pub fn column(&self, table: u32, column: u32) -> &str
        ensures { result.now ≡ column_name self.now table column }
    {
        match self.tables.as_slice().get(table as usize) {
            Some(names) => name_at(names.columns.as_slice(), column),
            None => "",
        }
    }

    /// The name of a table's key; empty where there is none.
    pub fn key(&self, table: u32, key: u32) -> &str
        ensures { result.now ≡ key_name self.now table key }
    {
        match self.tables.as_slice().get(table as usize) {
            Some(names) => name_at(names.keys.as_slice(), key),
            None => "",
        }
    }
}

/// The name with this number; empty where there is none.
fn name_at(names: &[Text], number: u32) -> &str
    ensures { result.now ≡ slice_index_or names.now number [] }
{
    match names.get(number as usize) {
        Some(name) => name.as_str(),
        None => "",
    }
}

/// The names in a table's definition.
fn table_names(alloc: Global, def: &TableDef) -> Result<TableNames, OutOfMemory>
    ensures { IfOk result (λ names. names ≡ table_names def.now) }
{
    Ok(TableNames {
        columns: column_names(alloc, def.columns.as_slice())?,
        keys: key_names(alloc, def.keys.as_slice())?,
    })
}

/// The names of columns.
fn column_names(alloc: Global, columns: &[ColumnDef]) -> Result<Texts, OutOfMemory>
    ensures { IfOk result (λ names. names ≡ map (λ (column : column_def). column.name) columns.now) }
{
    let mut names = Vec::new(alloc);
    for column in columns {
        names.push(column.name.copy(alloc)?)?;
    }
    Ok(Sequence::from_vec(names))
}

/// The names of keys.
fn key_names(alloc: Global, keys: &[KeyDef]) -> Result<Texts, OutOfMemory>
    ensures { IfOk result (λ names. names ≡ map (λ (key : key_def). key.name) keys.now) }
{
    let mut names = Vec::new(alloc);
    for key in keys {
        names.push(key.name.copy(alloc)?)?;
    }
    Ok(Sequence::from_vec(names))
}
