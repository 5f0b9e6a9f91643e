ghost use Rattle.std.specs.Prelude.{◌≡◌, ◌<◌, [], ◌∷◌, List, length, slice_set, OnOk, OnErr, IfOk, IfErr};
ghost use Rattle.csv.specs.Records.{fields_of};
ghost use Rattle.sa_table.specs.Table.{table_at};
ghost use Rattle.sa_load.specs.declared.fault.LoadFault.TheVariants as faults;
ghost use Rattle.sa_load.specs.Csv.{Fields, records_of};
ghost use Rattle.sa_load.specs.Load.{Loads, with_records};
ghost use Rattle.sa_load.specs.Record.{record_causes, row_of};
ghost use Rattle.sa_load.specs.inner.Reading.{HasLeft, TakesNext};
ghost use Rattle.sa_load.specs.inner.Refusal.{Gives, TellsFirst};
ghost use Rattle.sa_load.specs.inner.RowParts.{row_causes};

use crate::fault::{LoadCause, LoadFault};
use crate::record::read_row;
use crate::refusal::Refusal;
use csv::{ByteRecord, Reader, ReaderBuilder};
use sa_table::Tables;
use sa_value::Row;
use std::alloc::Global;

/// A table has at most so many rows.
const MOST_ROWS: u32 = 1_000_000;

/// Puts the records of a CSV text into a table, one row for each, and gives their number.
///
/// The text has no header and no comments. Fields are separated by commas and may stand in quotes
/// `"`; blank lines and a byte order mark at the start are passed over. A field `\N` is NULL. On a
/// fault the table has the rows of the records before the faulty one.
///
/// Source: RFC 4180.
pub fn load_csv(
    alloc: Global,
    bytes: &[u8],
    tables: &mut Tables,
    table: u32,
) -> Result<u32, LoadFault>
    requires there { table < length tables.old }
    ensures loads { let before = table_at tables.old table in
        Loads before (records_of bytes.now) (table_at tables.new table) result }
    ensures others { tables.new ≡ slice_set tables.old table (table_at tables.new table) }
{
    let mut reader = ReaderBuilder::new()
        .has_headers(false)
        .flexible(true)
        .from_reader(alloc, bytes);
    let mut record = ByteRecord::new(alloc);
    let mut loaded: u32 = 0;
    while take_record(&mut reader, &mut record)? {
        if let Err(refusal) = add_record(alloc, tables, table, &record) {
            return Err(refusal.at(u64::from(loaded) + 1));
        }
        loaded += 1;
    }
    Ok(loaded)
}

/// Whether there is a next record, which it takes.
fn take_record(reader: &mut Reader<&[u8]>, record: &mut ByteRecord) -> Result<bool, LoadFault>
    ensures next { IfOk result (λ found. (left : List Fields) → HasLeft reader.old left
        → TakesNext left found (fields_of record.new) reader.new) }
    ensures memory { IfErr result (λ fault. fault ≡ faults.OutOfMemory) }
{
    match reader.read_byte_record(record) {
        Ok(found) => Ok(found),
        Err(_) => Err(LoadFault::OutOfMemory),
    }
}

/// Puts the row that a record is at the end of a table.
fn add_record(
    alloc: Global,
    tables: &mut Tables,
    table: u32,
    record: &ByteRecord,
) -> Result<(), Refusal>
    requires there { table < length tables.old }
    ensures faultless { let before = table_at tables.old table in
        OnOk result (record_causes before (fields_of record.now) ≡ []) }
    ensures ok { let with_it = with_records (table_at tables.old table) (fields_of record.now ∷ []) in
        OnOk result (tables.new ≡ slice_set tables.old table with_it) }
    ensures refused { let before = table_at tables.old table in
        IfErr result (TellsFirst (record_causes before (fields_of record.now))) }
    ensures err { OnErr result (tables.new ≡ tables.old) }
{
    let row = row_in(alloc, tables, table, record)?;
    tables.add_row(table, row)?;
    Ok(())
}

/// The row that a record is in a table, whatever rows there are.
fn row_in(alloc: Global, tables: &Tables, table: u32, record: &ByteRecord) -> Result<Row, Refusal>
    requires there { table < length tables.now }
    ensures { let at = table_at tables.now table in
        let fields = fields_of record.now in
        Gives (row_causes at fields) (row_of at.def.columns fields) result }
{
    // A table has few columns, as `len` knows of all of them.
    let there = table < tables.len();
    prove!(there);
    if tables.count(table) >= MOST_ROWS {
        return Err(Refusal::Cause(LoadCause::RowFull));
    }
    let def = tables.def(table);
    if record.len() != def.columns.len() {
        return Err(Refusal::Cause(LoadCause::Arity));
    }
    read_row(alloc, def, record)
}
