ghost use Rattle.std.specs.Prelude.{◌≡◌, List, Some, slice_get};
ghost use Rattle.sa_ast.specs.declared.select.TableTree.{TableTree};
ghost use Rattle.sa_table.specs.Table.{Table};
ghost use Rattle.sa_resolve.specs.Fault.{least};
ghost use Rattle.sa_resolve.specs.Tables.{from_faults, table_faults};
ghost use Rattle.sa_resolve.specs.inner.Least.{fault_of};
ghost use Rattle.sa_resolve.specs.inner.Names.{IsSight};

use crate::least::{Fault, sooner, told};
use crate::sight::{Sight, called};
use sa_ast::TableTree;
use sa_query::ResolveKind;

/// The position of the first table too many.
const MOST_TABLES: usize = 8;

/// What is wrong with the tables of FROM.
///
/// A table that isn't there is told at its name; of two that are called alike the second is told
/// where it is called; the ninth is told at its name.
pub(crate) fn from_fault(sight: &Sight<'_>, from: &[TableTree]) -> Option<Fault>
    ensures { (tables : List Table) → IsSight tables from.now sight.now →
        fault_of result ≡ least (from_faults tables from.now) }
{
    let mut fault = None;
    for (number, tree) in from.iter().enumerate() {
        fault = sooner(fault, table_fault(sight, number, tree));
    }
    fault
}

fn table_fault(sight: &Sight<'_>, number: usize, tree: &TableTree) -> Option<Fault>
    ensures { (tables : List Table) (from : List TableTree) → IsSight tables from sight.now →
        slice_get from number ≡ Some tree.now →
        fault_of result ≡ least (table_faults tables from (number, tree.now)) }
{
    let Some(source) = sight.sources.get(number) else {
        return None;
    };
    let name = called(tree);
    let is_second = sight.source_named(number, name.name.as_str()).is_some();
    let place = tree.name.place;
    let unknown = told(source.table.is_none(), ResolveKind::UnknownTable, place);
    let duplicate = told(is_second, ResolveKind::DuplicateAlias, name.place);
    let ninth = told(number == MOST_TABLES, ResolveKind::TooManyTables, place);
    sooner(unknown, sooner(duplicate, ninth))
}
