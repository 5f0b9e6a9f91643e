ghost use Rattle.std.specs.Prelude.{◌≡◌, ◌≢◌, ◌↔◌, [], drop, slice_get, IsTrue};
ghost use Rattle.sa_plan.specs.Scan.{scan};
ghost use Rattle.sa_cursor.specs.Reading.{CanRead};

use crate::stretch::{Stretch, behind, first, row_at};
use sa_cond::Cells;
use sa_index::{Index, Shelf};
use sa_plan::Level;
use sa_table::Tables;
use std::marker::Model;
use std::snapshot::Snapshot;

/// A place in the rows that a level's access gives. It takes no memory, and copies no key.
///
/// Contracts see the tables, the level and the rows that are left.
#[derive(Drop)]
pub struct Cursor {
    stretch: Stretch,
    /// The tables and the level, for contracts alone.
    tables: Snapshot<Tables>,
    level: Snapshot<Level>,
}

impl Model for Cursor {
    ghost use Rattle.sa_cursor.specs.Reading.{Reading};
    ghost use Rattle.sa_cursor.specs.inner.Stretch.{rows_left, IsRead};

    ghost Value = { Reading };

    ghost use Rattle.std.specs.Coded.{codes};
    ghost use Rattle.sa_cond.specs.contracts.cond.Cond as cond;
    ghost use Rattle.sa_cond.specs.contracts.expr.Expr as expr;

    ghost coded = { Prim.hlevel (codes, cond.the_row.coded, expr.the_row.coded) };

    ghost view = { λ cursor. record {
      tables = cursor.tables.value;
      level = cursor.level.value;
      left = rows_left cursor.tables.value cursor.level.value cursor.stretch;
    } };

    ghost invariant = { λ cursor. IsRead cursor.tables.value cursor.level.value cursor.stretch };
}

impl Cursor {
    /// Before the first row of the level's access. The columns of earlier tables are these cells.
    pub fn start<I: Index, R: Cells>(level: &Level, shelf: &Shelf<I>, earlier: &R) -> Cursor
        requires can_read { CanRead shelf.now (R.has_cell earlier.now) level.now }
        ensures { result ≡ record {
          tables = shelf.now;
          level = level.now;
          left = scan level.now.access shelf.now level.now.table (R.cell_of earlier.now);
        } }
    {
        let tables: &Tables = shelf.tables();
        Cursor {
            stretch: first(level, shelf, earlier),
            tables: Snapshot::of(tables),
            level: Snapshot::of(level),
        }
    }

    /// The next row; None behind the last one. Level and shelf are those of the start.
    pub fn next<I: Index>(&mut self, level: &Level, shelf: &Shelf<I>) -> Option<u32>
        requires tables { self.old.tables ≡ shelf.now }
        requires level { self.old.level ≡ level.now }
        ensures row { result ≡ slice_get self.old.left 0 }
        ensures after { self.new ≡ record self.old { left = drop 1 self.old.left } }
    {
        let stretch = self.stretch;
        if stretch.position >= stretch.end {
            return None;
        }
        self.stretch = behind(level, shelf, stretch);
        Some(row_at(level, shelf, stretch.position))
    }

    /// Whether a row is left.
    pub fn has_next(&self) -> bool
        ensures { IsTrue result ↔ (self.now.left ≢ []) }
    {
        self.stretch.position < self.stretch.end
    }
}
