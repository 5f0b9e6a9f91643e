use sa_cond::Cells;
use sa_table::Tables;
use sa_value::ValueRef;

/// The row that a run has chosen of the table of its level, with the tables that it is in.
#[derive(Clone, Copy)]
pub(crate) struct ChosenRow<'a> {
    pub(crate) tables: &'a Tables,
    pub(crate) position: u32,
    pub(crate) table: u32,
    pub(crate) row: u32,
}

impl Cells for ChosenRow<'_> {
    ghost use Rattle.std.specs.Prelude.{⊤, [], ◌∷◌};
    ghost use Rattle.sa_plan.specs.Chosen.{chosen_cell};
    ghost use Rattle.sa_value.specs.declared.value.Value.TheVariants.{Null};
    ghost use Rattle.sa_exec.specs.inner.Chosen.{IsCell};

    ghost has_cell = { λ chosen. IsCell chosen.tables.now chosen.position chosen.table chosen.row };

    // Without groups every slot is NULL.
    ghost has_slot = { λ chosen number. ⊤ };

    ghost cell_of = { λ chosen. chosen_cell chosen.tables.now
        (record { position = chosen.position; table = chosen.table; row = chosen.row } ∷ []) };

    ghost slot_of = { λ chosen number. Null };

    #[inline(always)]
    fn cell(&self, _table: u32, column: u32) -> ValueRef<'_> {
        self.tables.cell(self.table, self.row, column)
    }

    #[inline(always)]
    fn slot(&self, _number: u32) -> ValueRef<'_> {
        ValueRef::Null
    }
}
