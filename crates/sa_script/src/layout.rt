ghost use Rattle.std.specs.Prelude.{◌≡◌, slice_index_or, IfOk};
ghost use Rattle.std.specs.List.{position, position_or_len};
ghost use Rattle.sa_script.specs.inner.Setup.{is_listed, layout_of, places_in, row_in, values_at};

use crate::named::is_same;
use sa_ast::{NameTree, NameTrees};
use sa_table::{ColumnDef, TableDef};
use sa_value::{OutOfMemory, Row, Sequence, Value};
use std::alloc::Global;

/// Which of a tuple's values each column gets.
#[derive(Debug, Drop)]
pub(crate) enum Layout {
    /// One for each column, in their order.
    Whole,
    /// As many as names are listed. A column's value has a place among them, or past them where the
    /// column is NULL.
    Listed { names: usize, places: Places },
}

/// Where the value of each column stands in a tuple.
pub(crate) type Places = Sequence<usize>;

impl Layout {
    /// The layout for a table's columns, of which some may be listed.
    pub(crate) fn new(
        alloc: Global,
        def: &TableDef,
        listed: &Option<NameTrees>,
    ) -> Result<Layout, OutOfMemory>
        ensures { IfOk result (λ layout. layout ≡ layout_of def.now listed.now) }
    {
        match listed {
            None => Ok(Layout::Whole),
            Some(names) => Ok(Layout::Listed {
                names: names.len(),
                places: places_in(alloc, names.as_slice(), def.columns.as_slice())?,
            }),
        }
    }

    /// The row of a tuple's values. With another number of them than there are names it has none.
    pub(crate) fn row(&self, alloc: Global, values: Row) -> Result<Row, OutOfMemory>
        ensures { IfOk result (λ row. row ≡ row_in self.now values) }
    {
        match self {
            Layout::Whole => Ok(values),
            Layout::Listed { names, places } => {
                if values.len() == *names {
                    values_at(alloc, values.as_slice(), places.as_slice())
                } else {
                    Ok(Row::new(alloc))
                }
            }
        }
    }
}

fn places_in(
    alloc: Global,
    names: &[NameTree],
    columns: &[ColumnDef],
) -> Result<Places, OutOfMemory>
    ensures { IfOk result (λ places. places ≡ places_in names.now columns.now) }
{
    let mut places = Vec::with_capacity(alloc, columns.len())?;
    for column in columns {
        places.push(place_of(names, column.name.as_str()))?;
    }
    Ok(Places::from_vec(places))
}

/// Where a column stands in a list of names, or how many names there are.
fn place_of(names: &[NameTree], column: &str) -> usize
    ensures { result ≡ position_or_len (is_listed column.now) names.now }
{
    name_at(names, column).unwrap_or(names.len())
}

fn name_at(names: &[NameTree], column: &str) -> Option<usize>
    ensures { result ≡ position (is_listed column.now) names.now }
{
    names
        .iter()
        .position(|other| is_same(other.name.as_str(), column))
}

fn values_at(alloc: Global, values: &[Value], places: &[usize]) -> Result<Row, OutOfMemory>
    ensures { IfOk result (λ row. row ≡ values_at values.now places.now) }
{
    let mut row = Vec::with_capacity(alloc, places.len())?;
    for place in places {
        row.push(value_at(alloc, values, *place)?)?;
    }
    Ok(Row::from_vec(row))
}

fn value_at(alloc: Global, values: &[Value], place: usize) -> Result<Value, OutOfMemory>
    ensures { IfOk result (λ value. value ≡ slice_index_or values.now place Value.Null) }
{
    match values.get(place) {
        Some(value) => value.copy(alloc),
        None => Ok(Value::Null),
    }
}
