ghost use Rattle.std.specs.Prelude.{◌≡◌};
ghost use Rattle.sa_resolve.specs.Fault.{told, least, rank, comes_first};
ghost use Rattle.sa_resolve.specs.inner.Least.{fault_in, fault_of, sooner, nearer};

use sa_query::ResolveKind;

/// Something that is wrong with a SELECT, at a byte of its text.
#[derive(Clone, Copy, Debug)]
pub(crate) struct Fault {
    pub(crate) kind: ResolveKind,
    pub(crate) place: usize,
}

/// The fault where it stands.
pub(crate) fn told(stands: bool, kind: ResolveKind, place: usize) -> Option<Fault>
    ensures { fault_of result ≡ least (told stands kind place) }
{
    if stands {
        Some(Fault { kind, place })
    } else {
        None
    }
}

/// Where a kind stands in the list of kinds.
fn rank(kind: ResolveKind) -> u8
    ensures { result ≡ rank kind }
{
    kind as u8
}

/// Whether a fault is told before another: the earlier place decides, and at one place the kind.
fn comes_first(fault: Fault, other: Fault) -> bool
    ensures { result ≡ comes_first (fault_in fault) (fault_in other) }
{
    fault.place < other.place
        || (fault.place == other.place && rank(fault.kind) <= rank(other.kind))
}

/// Which of two faults is told.
pub(crate) fn sooner(one: Option<Fault>, other: Option<Fault>) -> Option<Fault>
    ensures { fault_of result ≡ sooner (fault_of one) (fault_of other) }
{
    match (one, other) {
        (Some(fault), Some(later)) => Some(if comes_first(fault, later) {
            fault
        } else {
            later
        }),
        (Some(fault), None) => Some(fault),
        (None, other) => other,
    }
}

/// The lesser of two places.
pub(crate) fn nearer(one: Option<usize>, other: Option<usize>) -> Option<usize>
    ensures { result ≡ nearer one other }
{
    match (one, other) {
        (Some(place), Some(later)) => Some(place.min(later)),
        (Some(place), None) => Some(place),
        (None, other) => other,
    }
}
