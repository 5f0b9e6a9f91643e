ghost use Rattle.std.specs.Prelude.{◌≡◌, ◌<◌, ◌↔◌, length, IsTrue};
ghost use Rattle.sa_query.specs.Kinds.{cells_of};

use sa_cond::{CellKind, Kinds};
use sa_plan::Level;
use sa_table::{ColumnKind, Tables};

/// The columns that the conditions of a plan of one table can name.
#[derive(Clone, Copy)]
pub(crate) struct OnlyTable<'a> {
    pub(crate) tables: &'a Tables,
    pub(crate) level: &'a Level,
}

impl OnlyTable<'_> {
    ghost use Rattle.sa_plan_fixtures.specs.OnlyTable.{IsColumn};

    /// Whether this is a column of the table.
    pub(crate) fn has(&self, position: u32, column: u32) -> bool
        requires there { self.now.level.now.table < length self.now.tables.now }
        ensures { IsTrue result ↔ IsColumn self.now.tables.now self.now.level.now position column }
    {
        let columns = &self.tables.def(self.level.table).columns;
        position == self.level.position && (column as usize) < columns.len()
    }
}

impl Kinds for OnlyTable<'_> {
    ghost use Rattle.std.specs.Prelude.{⊤, [], ◌∷◌};
    ghost use Rattle.sa_cond.specs.declared.cells.CellKind.TheVariants.{Text};
    ghost use Rattle.sa_plan.specs.Lawful.{column_kind};
    ghost use Rattle.sa_plan_fixtures.specs.OnlyTable.{IsColumn};

    ghost has_column = { λ only. IsColumn only.tables.now only.level.now };

    ghost has_slot = { λ only number. ⊤ };

    ghost column_kind = { λ only. column_kind only.tables.now (only.level.now ∷ []) };

    ghost slot_kind = { λ only number. Text };

    fn column(&self, _table: u32, column: u32) -> CellKind {
        let columns = self.tables.def(self.level.table).columns.as_slice();
        kind_of_cells(columns[column as usize].kind)
    }

    fn slot(&self, _number: u32) -> CellKind {
        CellKind::Text
    }
}

/// What the cells of a column can hold.
fn kind_of_cells(kind: ColumnKind) -> CellKind
    ensures { result ≡ cells_of kind }
{
    match kind {
        ColumnKind::Int => CellKind::Number {
            least: i64::from(i32::MIN),
            greatest: i64::from(i32::MAX),
        },
        ColumnKind::BigInt => CellKind::Number {
            least: i64::MIN,
            greatest: i64::MAX,
        },
        ColumnKind::VarChar(_) => CellKind::Text,
    }
}
