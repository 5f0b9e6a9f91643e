ghost use Rattle.std.specs.Prelude.{◌≡◌, IfOk, OnOk};
ghost use Rattle.sa_parser.specs.SetupTree as spec;

use sa_ast::{ColumnTree, ColumnTrees, KeyTree, KeyTrees};
use sa_value::{OutOfMemory, Texts};
use sqlite_items::Items;
use std::alloc::Global;

/// What may stand behind the kind of a column.
#[derive(Clone, Copy, Debug, PartialEq, Eq)]
pub(crate) enum ColumnOption {
    NotNull,
    /// NULL or DEFAULT NULL, which say nothing new.
    Null,
    PrimaryKey,
    Unique,
}

/// A part of a table's definition.
#[derive(Debug, Drop)]
pub(crate) enum Part {
    /// A column, and the keys that its options make.
    Column { column: ColumnTree, keys: KeyTrees },
    Key(KeyTree),
}

/// The parts of a table's definition so far.
#[derive(Debug, Drop)]
pub(crate) struct Parts {
    pub(crate) columns: ColumnTrees,
    pub(crate) keys: KeyTrees,
}

impl Part {
    /// A column with one more option.
    pub(crate) fn with_option(
        self,
        alloc: Global,
        option: ColumnOption,
    ) -> Result<Part, OutOfMemory>
        ensures { IfOk result (λ part. part ≡ spec.with_option self option) }
    {
        let (mut column, mut keys) = match self {
            Part::Column { column, keys } => (column, keys),
            Part::Key(key) => return Ok(Part::Key(key)),
        };
        match option {
            ColumnOption::NotNull => column.not_null = true,
            ColumnOption::Null => {}
            ColumnOption::PrimaryKey => keys.push(own_key(alloc, &column, true)?)?,
            ColumnOption::Unique => keys.push(own_key(alloc, &column, false)?)?,
        }
        Ok(Part::Column { column, keys })
    }
}

impl Parts {
    /// No parts. They take memory from `alloc` as they grow.
    pub(crate) fn new(alloc: Global) -> Parts
        ensures { result ≡ spec.no_parts }
    {
        Parts {
            columns: Items::new(alloc),
            keys: Items::new(alloc),
        }
    }

    /// Puts a part at the end.
    pub(crate) fn push(&mut self, part: Part) -> Result<(), OutOfMemory>
        ensures { OnOk result (self.new ≡ spec.with_part self.old part) }
    {
        match part {
            Part::Column { column, keys } => {
                self.columns.push(column)?;
                self.keys.append(keys)?;
            }
            Part::Key(key) => self.keys.push(key)?,
        }
        Ok(())
    }
}

/// A key of one column, without a name.
fn own_key(alloc: Global, column: &ColumnTree, primary: bool) -> Result<KeyTree, OutOfMemory>
    ensures { IfOk result (λ key. key ≡ spec.own_key column.now primary) }
{
    let mut columns = Texts::new(alloc);
    columns.push(column.name.copy(alloc)?)?;
    Ok(KeyTree {
        name: None,
        unique: true,
        primary,
        columns,
    })
}
