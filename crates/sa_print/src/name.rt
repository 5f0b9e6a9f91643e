ghost use Rattle.std.specs.Prelude.{◌≡◌, ◌++◌, OnOk};
ghost use Rattle.std.specs.List.{list_all};
ghost use Rattle.std.specs.Option.{option_map};
ghost use Rattle.sa_lexer.specs.Byte.{is_word_byte};
ghost use Rattle.sa_print.specs.Name.{is_word, canonical_name, canonical_column, alias_text};
ghost use Rattle.sa_print.specs.Select.{name_in};

use crate::printer::Printer;
use sa_ast::NameTree;
use sa_lexer::is_reserved;
use sa_value::{OutOfMemory, Text};

impl Printer {
    /// Writes a name, in backquotes where it couldn't be read without them.
    #[tactic(auto, unfolding(crate::specs::Name::canonical_name))]
    pub(crate) fn name(&mut self, name: &str) -> Result<(), OutOfMemory>
        ensures { OnOk result (self.new ≡ self.old ++ canonical_name name.now) }
    {
        if is_word(name) && !is_reserved(name) {
            self.push(name)
        } else {
            self.push("`")?;
            self.between_quotes(b'`', name)?;
            self.push("`")
        }
    }

    /// Writes a column, after its table if that is written.
    pub(crate) fn column(&mut self, table: &Option<Text>, column: &Text) -> Result<(), OutOfMemory>
        ensures { OnOk result (self.new ≡ self.old ++ canonical_column table.now column.now) }
    {
        if let Some(table) = table {
            self.name(table.as_str())?;
            self.push(".")?;
        }
        self.name(column.as_str())
    }

    /// Writes AS and an alias, where there is one.
    pub(crate) fn alias(&mut self, alias: &Option<NameTree>) -> Result<(), OutOfMemory>
        ensures { OnOk result (self.new ≡ self.old ++ alias_text (option_map name_in alias.now)) }
    {
        match alias {
            None => Ok(()),
            Some(alias) => {
                self.push(" AS ")?;
                self.name(alias.name.as_str())
            }
        }
    }
}

/// Whether a name could be read as a word.
fn is_word(name: &str) -> bool
    ensures { result ≡ is_word name.now }
{
    !name.is_empty() && !name.as_bytes()[0].is_ascii_digit() && has_word_bytes(name)
}

/// Whether each byte of a name may stand in a word.
fn has_word_bytes(name: &str) -> bool
    ensures { result ≡ list_all is_word_byte name.now }
{
    name.bytes().all(|byte| is_word_byte(byte))
}

/// Whether a byte may stand in a word.
fn is_word_byte(byte: u8) -> bool
    ensures { result ≡ is_word_byte byte }
{
    byte.is_ascii_alphanumeric() || byte == b'_' || byte == b'$' || !byte.is_ascii()
}
