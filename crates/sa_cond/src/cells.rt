ghost use Rattle.std.specs.Prelude.{◌≡◌, ℕ};
ghost use Rattle.sa_value.specs.declared.value.Value.{Value as value};
ghost use Rattle.sa_value.specs.Value.{value_at};
ghost use Rattle.sa_cond.specs.declared.cells.CellKind.{CellKind as kind};

use sa_value::ValueRef;

/// The values that the columns and slots of a tree stand for: one row of each table, or one group.
pub trait Cells {
    /// The table has this column here, and the group this slot.
    ghost has_cell: { Self → (table column : ℕ) → Type 0 };

    ghost has_slot: { Self → (number : ℕ) → Type 0 };

    /// What they hold.
    ghost cell_of: { Self → (table column : ℕ) → value };

    ghost slot_of: { Self → (number : ℕ) → value };

    /// The value of a column of a table's row.
    fn cell(&self, table: u32, column: u32) -> ValueRef<'_>
        requires { has_cell self.now table column }
        ensures { value_at result ≡ cell_of self.now table column };

    /// The value of a slot of the group.
    fn slot(&self, number: u32) -> ValueRef<'_>
        requires { has_slot self.now number }
        ensures { value_at result ≡ slot_of self.now number };
}

/// What the cells of a column or a slot can hold. NULL can stand in each.
#[derive(Clone, Copy, Debug, PartialEq, Eq)]
pub enum CellKind {
    /// A number from `least` to `greatest`.
    Number { least: i64, greatest: i64 },
    /// A sum, which 64 bits may not hold.
    Sum,
    Text,
}

/// The kinds of the columns and slots of a tree.
pub trait Kinds {
    /// The table has this column, and the group this slot.
    ghost has_column: { Self → (table column : ℕ) → Type 0 };

    ghost has_slot: { Self → (number : ℕ) → Type 0 };

    /// Their kinds.
    ghost column_kind: { Self → (table column : ℕ) → kind };

    ghost slot_kind: { Self → (number : ℕ) → kind };

    /// The kind of a table's column.
    fn column(&self, table: u32, column: u32) -> CellKind
        requires { has_column self.now table column }
        ensures { result ≡ column_kind self.now table column };

    /// The kind of a slot of the group.
    fn slot(&self, number: u32) -> CellKind
        requires { has_slot self.now number }
        ensures { result ≡ slot_kind self.now number };
}
