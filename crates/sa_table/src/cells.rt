ghost use Rattle.std.specs.Prelude.{◌≡◌, ◌+◌, ◌<◌, ◌≤◌, [], ◌∷◌, ◌++◌, length, OnOk, Option, Some, None, slice_index_or, true, false, vec_len};
ghost use Rattle.std.specs.Option.{option_copied};

use sa_value::OutOfMemory;
use std::alloc::Global;

/// The cells of a column whose values are of one type, or NULL.
///
/// The list of NULLs ends at the last one, so it is empty while there is none. Where it says NULL,
/// the list of items has some item that is never read.
#[derive(Debug, Drop)]
pub(crate) struct Cells<T> {
    pub(crate) items: Vec<T>,
    pub(crate) nulls: Vec<bool>,
    ghost short: { vec_len nulls ≤ vec_len items },
}

impl<T> Cells<T> {
    ghost use Rattle.sa_table.specs.inner.Cells.{cells_of, cells_in, HasRoom, SameCells};

    pub(crate) fn new(alloc: Global) -> Cells<T>
        ensures { cells_in result ≡ [] }
    {
        Cells {
            items: Vec::new(alloc),
            nulls: Vec::new(alloc),
        }
    }

    /// What a row has, or None for NULL.
    #[inline(always)]
    pub(crate) fn get(&self, row: usize) -> Option<&T>
        requires { row < vec_len self.now.items }
        ensures { option_copied result ≡ slice_index_or (cells_in self.now) row None }
    {
        if self.is_null(row) {
            None
        } else {
            Some(&self.items[row])
        }
    }

    #[inline(always)]
    fn is_null(&self, row: usize) -> bool
        ensures { result ≡ slice_index_or self.now.nulls.items row false }
    {
        row < self.nulls.len() && self.nulls[row]
    }

    /// Room for an item.
    #[inline(always)]
    pub(crate) fn reserve(&mut self) -> Result<(), OutOfMemory>
        ensures same { SameCells self.old self.new }
        ensures room { OnOk result (HasRoom self.new false) }
    {
        self.items.reserve(1)?;
        Ok(())
    }

    /// Room for a NULL.
    pub(crate) fn reserve_null(&mut self) -> Result<(), OutOfMemory>
        ensures same { SameCells self.old self.new }
        ensures room { OnOk result (HasRoom self.new true) }
    {
        self.items.reserve(1)?;
        self.nulls.reserve(self.items.len() - self.nulls.len() + 1)?;
        Ok(())
    }

    /// Puts an item at the end.
    #[inline(always)]
    pub(crate) fn push(&mut self, item: T)
        requires { HasRoom self.old false }
        ensures { cells_in self.new ≡ cells_in self.old ++ Some item ∷ [] }
    {
        self.items.push_reserved(item);
    }

    /// Puts a NULL at the end, with an item that is never read.
    pub(crate) fn push_null(&mut self, unread: T)
        requires { HasRoom self.old true }
        ensures { cells_in self.new ≡ cells_in self.old ++ None ∷ [] }
    {
        while self.nulls.len() < self.items.len() {
            self.nulls.push_reserved(false);
        }
        self.nulls.push_reserved(true);
        self.items.push_reserved(unread);
    }
}
