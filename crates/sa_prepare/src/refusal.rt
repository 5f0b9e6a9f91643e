ghost use Rattle.std.specs.Prelude.{◌≡◌};
ghost use Rattle.sa_prepare.specs.Prepared.{first_place, refusal_of};
ghost use Rattle.sa_prepare.specs.inner.Refused as spec;
ghost use Rattle.sa_query.specs.declared.refusal.Refusal.TheVariants.{NotSupported};

use sa_lexer::{LexFault, Token};
use sa_parser::ParseFault;
use sa_query::Refusal;
use sa_resolve::ResolveFault;

/// How a fault of the tokens is refused.
pub(crate) fn lex_refusal(fault: LexFault) -> Refusal
    ensures { result ≡ spec.lex_refusal fault }
{
    match fault {
        LexFault::Bad { kind, place } => Refusal::Lex { kind, place },
        LexFault::OutOfMemory => Refusal::OutOfMemory,
    }
}

/// How a fault of the grammar is refused.
pub(crate) fn parse_refusal(fault: ParseFault) -> Refusal
    ensures { result ≡ refusal_of fault }
{
    match fault {
        ParseFault::Syntax { place } => Refusal::Syntax { place },
        ParseFault::NotSupported { place } => Refusal::NotSupported { place },
        ParseFault::TooDeep { place } => Refusal::TooDeep { place },
        ParseFault::OutOfMemory => Refusal::OutOfMemory,
    }
}

/// How a fault of the names and types of a SELECT is refused.
pub(crate) fn resolve_refusal(fault: ResolveFault) -> Refusal
    ensures { result ≡ spec.resolve_refusal fault }
{
    match fault {
        ResolveFault::Bad { kind, place } => Refusal::Resolve { fault: kind, place },
        ResolveFault::OutOfMemory => Refusal::OutOfMemory,
    }
}

/// That the first token isn't supported.
pub(crate) fn unsupported(tokens: &[Token]) -> Refusal
    ensures { result ≡ NotSupported (first_place tokens.now) }
{
    match tokens {
        [] => Refusal::NotSupported { place: 0 },
        [first, ..] => Refusal::NotSupported { place: first.start },
    }
}
