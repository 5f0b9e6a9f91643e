ghost use Rattle.std.specs.Prelude.{◌≡◌, ◌⊎◌, ◌++◌, ◌∷◌, [], ◌<◌, not, length, drop, OnOk};
ghost use Rattle.std.specs.List.{prefix_len};
ghost use Rattle.std.specs.Str.{IsCharBoundary};
ghost use Rattle.sa_print.specs.Quoted.{is_doubled, between_quotes, canonical_literal};

use crate::printer::Printer;
use sa_value::OutOfMemory;

impl Printer {
    /// Writes a text in single quotes.
    pub(crate) fn literal(&mut self, text: &str) -> Result<(), OutOfMemory>
        ensures { OnOk result (self.new ≡ self.old ++ canonical_literal text.now) }
    {
        self.push("'")?;
        self.between_quotes(b'\'', text)?;
        self.push("'")
    }

    /// Writes what stands between two quotes.
    pub(crate) fn between_quotes(&mut self, quote: u8, text: &str) -> Result<(), OutOfMemory>
        requires { (quote ≡ 39) ⊎ (quote ≡ 96) }
        ensures { OnOk result (self.new ≡ self.old ++ between_quotes quote text.now) }
    {
        let mut rest = text;
        while !rest.is_empty() {
            let (written, len) = first_unit(quote, rest);
            self.push(written)?;
            rest = &rest[len..];
        }
        Ok(())
    }
}

/// How the front of such a text is written, and how many bytes that front takes: a byte that is doubled, or
/// a run of others.
fn first_unit(quote: u8, rest: &str) -> (&str, usize)
    requires some { 0 < length rest.now }
    requires quote { (quote ≡ 39) ⊎ (quote ≡ 96) }
    ensures written { between_quotes quote rest.now
        ≡ result.0.now ++ between_quotes quote (drop result.1 rest.now) }
    ensures some { 0 < result.1 }
    ensures cut { IsCharBoundary rest.now result.1 }
{
    let run = run_of_singles(quote, rest.as_bytes());
    if run > 0 {
        (&rest[..run], run)
    } else {
        (doubled(rest.as_bytes()[0]), 1)
    }
}

/// How many bytes come before the next that is doubled.
fn run_of_singles(quote: u8, bytes: &[u8]) -> usize
    ensures { result ≡ prefix_len (λ byte. not (is_doubled quote byte)) bytes.now }
{
    bytes
        .iter()
        .take_while(|byte| **byte != quote && (**byte != b'\\' || quote == b'`'))
        .count()
}

/// A byte that is doubled, twice.
fn doubled(byte: u8) -> &'static str
    requires { (byte ≡ 39) ⊎ (byte ≡ 92) ⊎ (byte ≡ 96) }
    ensures { result.now ≡ byte ∷ byte ∷ [] }
{
    match byte {
        b'\'' => "''",
        b'\\' => "\\\\",
        _ => "``",
    }
}
