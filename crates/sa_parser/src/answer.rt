ghost use Rattle.sa_parser.specs.declared.answer.ParseFault.TheVariants as faults;
ghost use Rattle.std.specs.Prelude.{◌≡◌};

use sa_value::OutOfMemory;

/// Why tokens are no statement. Places count bytes of the text; the end of the text is that of its last token.
#[derive(Debug, Drop)]
pub enum ParseFault {
    /// The first token that no statement of the language goes on with, or the end where tokens are missing.
    Syntax { place: usize },
    /// Likewise, where the token asks for something that MariaDB has and this product has not.
    NotSupported { place: usize },
    /// The token that would go 65 levels deep.
    TooDeep { place: usize },
    /// Memory ran out.
    OutOfMemory,
}

impl From<OutOfMemory> for ParseFault {
    ghost from_gives = { λ _ fault. fault ≡ faults.OutOfMemory };

    fn from(_error: OutOfMemory) -> ParseFault {
        ParseFault::OutOfMemory
    }
}
