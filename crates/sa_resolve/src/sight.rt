ghost use Rattle.std.specs.Prelude.{◌≡◌, ◌<◌, ◌≤◌, ℕ, [], ◌∷◌, ◌++◌, List, None, Some, length, take, option_copied, option_map, slice_get, IfOk, IfSome, OnOk, if◌then◌else◌};
ghost use Rattle.std.specs.List.{position};
ghost use Rattle.std.specs.Option.{option_or};
ghost use Rattle.std.specs.Str.{bytes_eq};
ghost use Rattle.indexmap.specs.IndexMap.{get_by};
ghost use Rattle.sa_ast.specs.declared.select.TableTree.{TableTree};
ghost use Rattle.sa_table.specs.declared.def.ColumnDef.{ColumnDef};
ghost use Rattle.sa_table.specs.Create.{same_name};
ghost use Rattle.sa_table.specs.Table.{Table};
ghost use Rattle.sa_resolve.specs.Sight.{called, plain, qualified, source_named, table_named};
ghost use Rattle.sa_resolve.specs.Tables.{sources_of};
ghost use Rattle.sa_resolve.specs.inner.Indexed.{column_of, found_in, with_column, with_columns, with_table};
ghost use Rattle.sa_resolve.specs.inner.Kind.{kind_at};
ghost use Rattle.sa_resolve.specs.inner.Meanings.{def_at, def_or, kind_by};
ghost use Rattle.sa_resolve.specs.inner.Names.{among, IsSight};
ghost use Rattle.sa_resolve.specs.inner.Sighted.{below, columns_by, columns_to, number_in, HasTables};

use crate::kind::Kind;
use crate::numbers::small;
use indexmap::IndexMap;
use sa_ast::{NameTree, TableTree};
use sa_query::Column;
use sa_table::{ColumnDef, ColumnKind, Tables};
use sa_value::OutOfMemory;
use std::alloc::Global;

/// A table of FROM.
#[derive(Clone, Copy, Debug)]
pub(crate) struct Source<'a> {
    /// The name by which the statement calls it, and where.
    pub(crate) called: &'a NameTree,
    /// Its number, if there is such a table.
    pub(crate) table: Option<u32>,
    /// Its columns; a table that isn't there has none.
    pub(crate) defs: &'a [ColumnDef],
    /// How many columns the tables before it have.
    pub(crate) first: usize,
}

/// Which columns have a name: the first of them, and the table of the second.
#[derive(Clone, Copy, Debug)]
struct Named {
    column: Column,
    second: Option<u32>,
}

/// What a name stands for: the one of its kind, none, or several.
#[derive(Clone, Copy, Debug)]
pub(crate) enum Lookup<T> {
    One(T),
    Nothing,
    Several,
}

/// All tables of FROM and their columns, by name.
#[derive(Drop)]
pub(crate) struct Sight<'a> {
    pub(crate) sources: Vec<Source<'a>>,
    /// The columns of all tables, table by table.
    pub(crate) columns: Vec<Column>,
    names: IndexMap<&'a str, Named>,
    /// The first table with each alias.
    aliases: IndexMap<&'a str, u32>,
}

/// The name that is written last of a table and its alias.
pub(crate) fn called(tree: &TableTree) -> &NameTree
    ensures { result.now ≡ called tree.now }
{
    match &tree.alias {
        None => &tree.name,
        Some(alias) => alias,
    }
}

impl<'a> Sight<'a> {
    /// These tables of FROM.
    pub(crate) fn new(
        alloc: Global,
        tables: &'a Tables,
        from: &'a [TableTree],
    ) -> Result<Sight<'a>, OutOfMemory>
        ensures { IfOk result (λ sight. IsSight tables.now from.now sight) }
    {
        let mut sight = Sight {
            sources: Vec::with_capacity(alloc, from.len())?,
            columns: Vec::new(alloc),
            names: IndexMap::new(alloc),
            aliases: IndexMap::new(alloc),
        };
        for tree in from {
            sight.put_table(tables, tree)?;
        }
        Ok(sight)
    }

    /// One table more.
    fn put_table(&mut self, tables: &'a Tables, tree: &'a TableTree) -> Result<(), OutOfMemory>
        ensures { OnOk result ((done : List TableTree) → HasTables tables.now done self.old
            → HasTables tables.now (done ++ tree.now ∷ []) self.new) }
    {
        let number = small(self.sources.len())?;
        let table = table_named(tables, tree.name.name.as_str());
        let source = Source {
            called: called(tree),
            table,
            defs: defs_of(tables, table),
            first: self.columns.len(),
        };
        put_alias(&mut self.aliases, source.called.name.as_str(), number)?;
        put_columns(&mut self.columns, number, source.defs.len())?;
        put_names(&mut self.names, number, source.defs)?;
        self.sources.push(source)?;
        Ok(())
    }

    /// The name of a column.
    pub(crate) fn name(&self, column: Column) -> &'a str
        ensures { result.now ≡ (def_or (def_at self.now.sources.items column)).name }
    {
        match self.def(column) {
            None => "",
            Some(def) => def.name.as_str(),
        }
    }

    /// The definition of a column, if it is there.
    fn def(&self, column: Column) -> Option<&'a ColumnDef>
        ensures { option_copied result ≡ def_at self.now.sources.items column }
    {
        match self.sources.get(column.table as usize) {
            None => None,
            Some(source) => source.defs.get(column.column as usize),
        }
    }

    /// The kind of a column.
    pub(crate) fn kind(&self, column: Column) -> Kind
        ensures { kind_at result ≡ kind_by self.now column }
    {
        match self.def(column) {
            None => Kind::of_column(ColumnKind::Int),
            Some(def) => Kind::of_column(def.kind),
        }
    }

    /// The position of the first table with this alias among the first `count` ones.
    pub(crate) fn source_named(&self, count: usize, alias: &str) -> Option<u32>
        ensures { (tables : List Table) (from : List TableTree) → IsSight tables from self.now →
            count ≤ length from → result
            ≡ option_map (λ numbered. numbered.0)
            (source_named (take count (sources_of tables from)) alias.now) }
    {
        match self.aliases.get(&alias) {
            None => None,
            Some(number) => below(*number, count),
        }
    }

    /// The column with this name of the first `count` tables.
    pub(crate) fn plain(&self, count: usize, name: &str) -> Lookup<Column>
        ensures { (tables : List Table) (from : List TableTree) → IsSight tables from self.now →
            count ≤ length from →
            found_in result ≡ plain tables (take count (sources_of tables from)) name.now }
    {
        match self.names.get(&name) {
            None => Lookup::Nothing,
            Some(named) => named.among(count),
        }
    }

    /// The column with this name of the first table with this alias among the first `count` ones.
    pub(crate) fn qualified(
        &self,
        count: usize,
        alias: &str,
        name: &str,
    ) -> Result<Lookup<Column>, OutOfMemory>
        ensures { (tables : List Table) (from : List TableTree) → IsSight tables from self.now →
            count ≤ length from → IfOk result (λ found. found_in found
            ≡ qualified tables (take count (sources_of tables from)) alias.now name.now) }
    {
        let Some(table) = self.source_named(count, alias) else {
            return Ok(Lookup::Nothing);
        };
        match self.column_in(table, name) {
            None => Ok(Lookup::Nothing),
            Some(index) => Ok(Lookup::One(Column {
                table,
                column: small(index)?,
            })),
        }
    }

    /// The number of the column with this name of a table.
    fn column_in(&self, table: u32, name: &str) -> Option<usize>
        ensures { result ≡ number_in (slice_get self.now.sources.items table) name.now }
    {
        match self.sources.get(table as usize) {
            None => None,
            Some(source) => position(source.defs, name),
        }
    }
}

/// The position of the column with this name.
fn position(defs: &[ColumnDef], name: &str) -> Option<usize>
    ensures { result ≡ position (λ (def : ColumnDef). same_name def.name name.now) defs.now }
{
    defs.iter().position(|def| is_called(def, name))
}

fn is_called(def: &ColumnDef, name: &str) -> bool
    ensures { result ≡ same_name def.now.name name.now }
{
    def.name.as_str() == name
}

/// This position, if it is less than that.
fn below(number: u32, count: usize) -> Option<u32>
    ensures { result ≡ below count (Some number) }
{
    if (number as usize) < count {
        Some(number)
    } else {
        None
    }
}

/// The number of the table with this name.
fn table_named(tables: &Tables, name: &str) -> Option<u32>
    ensures there { IfSome result (λ table. table < length tables.now) }
    ensures named { result ≡ table_named tables.now name.now }
{
    let Some(table) = tables.find(name) else {
        return None;
    };
    // No two tables have one name, as `len` knows of all of them.
    let there = table < tables.len();
    prove!(there);
    Some(table)
}

/// The columns of a table, if there is one.
fn defs_of(tables: &Tables, table: Option<u32>) -> &[ColumnDef]
    requires there { IfSome table (λ number. number < length tables.now) }
    ensures { result.now ≡ columns_by tables.now table }
{
    match table {
        None => &[],
        Some(number) => tables.def(number).columns.as_slice(),
    }
}

/// An alias of the table at this position, unless one before has it.
fn put_alias<'a>(
    aliases: &mut IndexMap<&'a str, u32>,
    alias: &'a str,
    table: u32,
) -> Result<(), OutOfMemory>
    ensures { OnOk result ((other : List ℕ) → get_by (λ key. bytes_eq other key.now) aliases.new
        ≡ option_or (get_by (λ key. bytes_eq other key.now) aliases.old)
        (if same_name alias.now other then Some table else None)) }
{
    if aliases.get(&alias).is_none() {
        aliases.insert(alias, table)?;
    }
    Ok(())
}

/// So many columns of the table at this position.
fn put_columns(columns: &mut Vec<Column>, table: u32, count: usize) -> Result<(), OutOfMemory>
    ensures { OnOk result (columns.new.items ≡ columns.old.items ++ columns_to table count) }
{
    for index in 0..count {
        columns.push(Column {
            table,
            column: small(index)?,
        })?;
    }
    Ok(())
}

/// The names of the columns of the table at this position.
fn put_names<'a>(
    names: &mut IndexMap<&'a str, Named>,
    table: u32,
    defs: &'a [ColumnDef],
) -> Result<(), OutOfMemory>
    ensures { OnOk result ((name : List ℕ) → get_by (λ key. bytes_eq name key.now) names.new
        ≡ with_columns (get_by (λ key. bytes_eq name key.now) names.old)
        (column_of table defs.now name)) }
{
    for index in 0..defs.len() {
        let column = Column {
            table,
            column: small(index)?,
        };
        put_name(names, defs[index].name.as_str(), column)?;
    }
    Ok(())
}

/// A column with this name.
fn put_name<'a>(
    names: &mut IndexMap<&'a str, Named>,
    name: &'a str,
    column: Column,
) -> Result<(), OutOfMemory>
    ensures { OnOk result ((other : List ℕ) → get_by (λ key. bytes_eq other key.now) names.new
        ≡ (if same_name name.now other
        then Some (with_column (get_by (λ key. bytes_eq other key.now) names.old) column)
        else get_by (λ key. bytes_eq other key.now) names.old)) }
{
    let named = match names.get(&name) {
        None => Named {
            column,
            second: None,
        },
        Some(named) => named.with(column.table),
    };
    names.insert(name, named)?;
    Ok(())
}

impl Named {
    /// With a column of this table more; of one table the first with a name counts.
    fn with(self, table: u32) -> Named
        ensures { result ≡ with_table self table }
    {
        let second = match self.second {
            None if self.column.table == table => None,
            None => Some(table),
            Some(second) => Some(second),
        };
        Named {
            column: self.column,
            second,
        }
    }

    /// What is there of it among the first `count` tables.
    fn among(self, count: usize) -> Lookup<Column>
        ensures { found_in result ≡ among count (Some self) }
    {
        if self.column.table as usize >= count {
            return Lookup::Nothing;
        }
        match self.second {
            Some(second) if (second as usize) < count => Lookup::Several,
            _ => Lookup::One(self.column),
        }
    }
}
