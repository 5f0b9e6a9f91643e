ghost use Rattle.std.specs.Prelude.{◌≡◌, ◌<◌, ◌≤◌, length, slice_get, Some};
ghost use Rattle.csv.specs.Records.{fields_of, field_at};
ghost use Rattle.sa_load.specs.Record.{column_causes, row_of};
ghost use Rattle.sa_load.specs.inner.Refusal.{Gives};

use crate::field::read_field;
use crate::refusal::Refusal;
use csv::ByteRecord;
use sa_table::TableDef;
use sa_value::Row;
use std::alloc::Global;

/// The row that a record is in a table, or the first cause of its fields. It has a field for each
/// column.
pub(crate) fn read_row(alloc: Global, def: &TableDef, record: &ByteRecord) -> Result<Row, Refusal>
    requires wide { length (fields_of record.now) ≡ length def.now.columns }
    requires few { length def.now.columns ≤ 32 }
    ensures { let fields = fields_of record.now in
        Gives (column_causes def.now.columns fields) (row_of def.now.columns fields) result }
{
    let columns = def.columns.as_slice();
    let mut values = Vec::with_capacity(alloc, columns.len())?;
    for (column, def) in columns.iter().enumerate() {
        let field = field_in(record, column);
        values.push(read_field(alloc, column as u32, def, field)?)?;
    }
    Ok(Row::from_vec(values))
}

/// The field of a record at an index.
fn field_in(record: &ByteRecord, index: usize) -> &[u8]
    requires { index < length (fields_of record.now) }
    ensures { slice_get (fields_of record.now) index ≡ Some result.now }
{
    record.get(index).unwrap()
}
