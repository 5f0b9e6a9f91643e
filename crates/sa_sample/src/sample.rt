ghost use Rattle.std.specs.Prelude.{◌≡◌, ⊤};
ghost use Rattle.sa_sample.specs.Sample.{cell_at, slot_at, column_kind_at, slot_kind_at, int_kind};

use sa_cond::{CellKind, Cells, Kinds};
use sa_value::ValueRef;

/// A row of two tables and a group's sum.
///
/// The first table has the columns a = 2 and b = 3, which are INT, and n = 7, a BIGINT. The second
/// has c = NULL, an INT, t = 'pear' and u = NULL, both texts. The sum is 2^70.
#[derive(Clone, Copy)]
pub struct Sample;

impl Cells for Sample {
    ghost has_cell = { λ it table column. ⊤ };

    ghost has_slot = { λ it number. ⊤ };

    ghost cell_of = { λ it table column. cell_at table column };

    ghost slot_of = { λ it number. slot_at };

    fn cell(&self, table: u32, column: u32) -> ValueRef<'_> {
        if table == 0 {
            if column == 0 {
                ValueRef::Int(2)
            } else if column == 1 {
                ValueRef::Int(3)
            } else {
                ValueRef::Int(7)
            }
        } else if column == 0 {
            ValueRef::Null
        } else if column == 1 {
            ValueRef::Text("pear")
        } else {
            ValueRef::Null
        }
    }

    fn slot(&self, _number: u32) -> ValueRef<'_> {
        ValueRef::Big(1 << 70)
    }
}

impl Kinds for Sample {
    ghost has_column = { λ it table column. ⊤ };

    ghost has_slot = { λ it number. ⊤ };

    ghost column_kind = { λ it table column. column_kind_at table column };

    ghost slot_kind = { λ it number. slot_kind_at };

    fn column(&self, table: u32, column: u32) -> CellKind {
        if table == 0 {
            if column == 0 || column == 1 {
                int()
            } else {
                CellKind::Number {
                    least: i64::MIN,
                    greatest: i64::MAX,
                }
            }
        } else if column == 0 {
            int()
        } else {
            CellKind::Text
        }
    }

    fn slot(&self, _number: u32) -> CellKind {
        CellKind::Sum
    }
}

/// The kind of an INT column.
fn int() -> CellKind
    ensures { result ≡ int_kind }
{
    CellKind::Number {
        least: i64::from(i32::MIN),
        greatest: i64::from(i32::MAX),
    }
}
