//! The values that an access seeks by.

ghost use Rattle.std.specs.Prelude.{◌≡◌, ◌≤◌, length, map, All};
ghost use Rattle.std.specs.List.{list_any};
ghost use Rattle.sa_value.specs.Value.{value_at};
ghost use Rattle.sa_table.specs.AddRow.{is_null};
ghost use Rattle.sa_plan.specs.Scan.{sought};
ghost use Rattle.sa_cursor.specs.Reading.{IsThere};

use sa_cond::Cells;
use sa_key::KeyRef;
use sa_plan::RefPart;
use sa_value::ValueRef;

/// The values by which the parts of a key are sought.
pub(crate) fn sought_tuple<'a, R: Cells>(from: &'a [RefPart], earlier: &'a R) -> KeyRef<'a>
    requires few { length from.now ≤ 4 }
    requires cells { All (IsThere (R.has_cell earlier.now)) from.now }
    ensures { result ≡ map (sought (R.cell_of earlier.now)) from.now }
{
    let mut tuple = KeyRef::new();
    for part in from {
        tuple.push(sought_value(part, earlier));
    }
    tuple
}

/// The value by which a part of a key is sought.
fn sought_value<'a, R: Cells>(part: &'a RefPart, earlier: &'a R) -> ValueRef<'a>
    requires there { IsThere (R.has_cell earlier.now) part.now }
    ensures { value_at result ≡ sought (R.cell_of earlier.now) part.now }
{
    match part {
        RefPart::Literal(value) => value.view(),
        RefPart::Column { table, column } => earlier.cell(*table, *column),
    }
}

/// Whether one of the values is NULL.
pub(crate) fn has_null(tuple: &KeyRef<'_>) -> bool
    ensures { result ≡ list_any is_null tuple.now }
{
    for index in 0..tuple.len() {
        if is_null(tuple.get(index)) {
            return true;
        }
    }
    false
}

/// Whether a value is NULL.
fn is_null(value: ValueRef<'_>) -> bool
    ensures { result ≡ is_null (value_at value.entry) }
{
    matches!(value, ValueRef::Null)
}
