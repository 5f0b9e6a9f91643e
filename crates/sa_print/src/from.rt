ghost use Rattle.std.specs.Prelude.{◌≡◌, ◌++◌, codes, OnOk};
ghost use Rattle.sa_print.specs.Select.{join_text, table_text, tables_text};

use crate::printer::Printer;
use sa_ast::TableTree;
use sa_value::OutOfMemory;

impl Printer {
    /// Writes FROM and its tables.
    pub(crate) fn from(&mut self, tables: &[TableTree]) -> Result<(), OutOfMemory>
        ensures { OnOk result (self.new ≡ self.old ++ codes " FROM " ++ tables_text tables.now) }
    {
        self.push(" FROM ")?;
        self.tables(tables)
    }

    /// Writes the tables of FROM.
    fn tables(&mut self, tables: &[TableTree]) -> Result<(), OutOfMemory>
        ensures { OnOk result (self.new ≡ self.old ++ tables_text tables.now) }
    {
        match tables {
            [] => Ok(()),
            [first, rest @ ..] => {
                self.table(first)?;
                for next in rest {
                    self.next_table(next)?;
                }
                Ok(())
            }
        }
    }

    /// Writes a table that isn't the first.
    fn next_table(&mut self, table: &TableTree) -> Result<(), OutOfMemory>
        ensures { OnOk result
            (self.new ≡ self.old ++ join_text table.now.joined ++ table_text table.now) }
    {
        self.push(if table.joined { " JOIN " } else { ", " })?;
        self.table(table)
    }

    /// Writes a table with its alias and its ON.
    fn table(&mut self, table: &TableTree) -> Result<(), OutOfMemory>
        ensures { OnOk result (self.new ≡ self.old ++ table_text table.now) }
    {
        self.name(table.name.name.as_str())?;
        self.alias(&table.alias)?;
        self.condition(" ON ", &table.on)
    }
}
