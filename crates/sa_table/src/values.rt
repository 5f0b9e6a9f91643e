ghost use Rattle.std.specs.Prelude.{◌≡◌, ◌≤◌, ◌||◌, length, nat_lt};
ghost use Rattle.std.specs.Str.{chars};
ghost use Rattle.sa_table.specs.AddRow.{number_faults, text_faults, value_faults, column_faults};
ghost use Rattle.sa_table.specs.inner.First.{first};

use crate::def::{ColumnDef, ColumnKind};
use crate::fault::RowFault;
use sa_value::Value;

/// A text that is longer, in bytes of UTF-8, fits no column.
const LONGEST_TEXT: usize = 255;

/// The fault of a number in a column.
fn number_fault(column: u32, kind: ColumnKind, number: i128) -> Option<RowFault>
    ensures { result ≡ first (number_faults column kind number) }
{
    let (least, greatest) = match kind {
        ColumnKind::Int => (i128::from(i32::MIN), i128::from(i32::MAX)),
        ColumnKind::BigInt => (i128::from(i64::MIN), i128::from(i64::MAX)),
        ColumnKind::VarChar(_) => return Some(RowFault::TypeMismatch { column }),
    };
    if least <= number && number <= greatest {
        None
    } else {
        Some(RowFault::OutOfRange { column })
    }
}

/// The fault of a text in a column.
fn text_fault(column: u32, kind: ColumnKind, text: &str) -> Option<RowFault>
    ensures { result ≡ first (text_faults column kind text.now) }
{
    match kind {
        ColumnKind::VarChar(characters) => {
            if is_too_long(text, characters as usize) {
                Some(RowFault::TooLong { column })
            } else {
                None
            }
        }
        ColumnKind::Int | ColumnKind::BigInt => Some(RowFault::TypeMismatch { column }),
    }
}

fn is_too_long(text: &str, most: usize) -> bool
    ensures { result ≡ (nat_lt 255 (length text.now) || nat_lt most (length (chars text.now))) }
{
    text.len() > LONGEST_TEXT || character_count(text) > most
}

fn character_count(text: &str) -> usize
    ensures { result ≡ length (chars text.now) }
{
    text.chars().count()
}

/// The fault of a value in a column.
fn value_fault(column: u32, def: &ColumnDef, value: &Value) -> Option<RowFault>
    ensures { result ≡ first (value_faults column def.now value.now) }
{
    match value {
        Value::Null if def.not_null => Some(RowFault::NullNotAllowed { column }),
        Value::Null => None,
        Value::Int(number) => number_fault(column, def.kind, i128::from(*number)),
        Value::Big(number) => number_fault(column, def.kind, *number),
        Value::Text(text) => text_fault(column, def.kind, text.as_str()),
    }
}

/// The first fault of a row's values, column by column.
pub(crate) fn column_fault(columns: &[ColumnDef], row: &[Value]) -> Option<RowFault>
    requires wide { length row.now ≡ length columns.now }
    requires few { length columns.now ≤ 32 }
    ensures { result ≡ first (column_faults columns.now row.now) }
{
    for (column, def) in columns.iter().enumerate() {
        if let Some(fault) = value_fault(column as u32, def, &row[column]) {
            return Some(fault);
        }
    }
    None
}
