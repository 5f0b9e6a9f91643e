ghost use Rattle.std.specs.Prelude.{◌≡◌, ◌++◌, [], string_bytes, OnOk};
ghost use Rattle.std.specs.Fmt.{decimal, signed_decimal};

use sa_value::{OutOfMemory, Text};
use std::alloc::Global;
use std::marker::Model;

/// A text that is written from its beginning to its end. Contracts see it as the list of its bytes.
#[derive(Drop)]
pub(crate) struct Printer {
    alloc: Global,
    string: String,
}

impl Model for Printer {
    ghost use Rattle.std.specs.Prelude.{List, ℕ, string_bytes};

    ghost Value = { List ℕ };

    ghost view = { λ printer. string_bytes printer.string };
}

impl Printer {
    /// Nothing is written.
    pub(crate) fn new(alloc: Global) -> Printer
        ensures { result ≡ [] }
    {
        Printer {
            alloc,
            string: String::new(alloc),
        }
    }

    /// The text that was written.
    pub(crate) fn into_text(self) -> Text
        ensures { result ≡ self }
    {
        let Printer { string, .. } = self;
        Text::from_string(string)
    }

    /// Writes a text as it is.
    pub(crate) fn push(&mut self, text: &str) -> Result<(), OutOfMemory>
        ensures { OnOk result (self.new ≡ self.old ++ text.now) }
    {
        self.string.push_str(text)?;
        Ok(())
    }

    /// Writes a number's decimal digits.
    pub(crate) fn natural(&mut self, number: u128) -> Result<(), OutOfMemory>
        ensures { OnOk result (self.new ≡ self.old ++ decimal number) }
    {
        let digits = number.to_string(self.alloc)?;
        self.push(&digits)
    }

    /// Writes a number's decimal digits, after a minus where it is negative.
    pub(crate) fn integer(&mut self, number: i128) -> Result<(), OutOfMemory>
        ensures { OnOk result (self.new ≡ self.old ++ signed_decimal number) }
    {
        let digits = number.to_string(self.alloc)?;
        self.push(&digits)
    }
}
