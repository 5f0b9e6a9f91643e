ghost use Rattle.std.specs.Prelude.{◌≡◌};
ghost use Rattle.sa_resolve.specs.declared.fault.ResolveFault.TheVariants as faults;

use sa_query::ResolveKind;
use sa_value::OutOfMemory;

/// Why a SELECT has no query.
#[derive(Clone, Copy, Debug, PartialEq, Eq)]
pub enum ResolveFault {
    /// This is wrong at a byte of the statement's text.
    Bad { kind: ResolveKind, place: usize },
    /// Memory ran out.
    OutOfMemory,
}

impl From<OutOfMemory> for ResolveFault {
    ghost from_gives = { λ _ fault. fault ≡ faults.OutOfMemory };

    fn from(_error: OutOfMemory) -> ResolveFault {
        ResolveFault::OutOfMemory
    }
}
