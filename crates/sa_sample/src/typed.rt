ghost use Rattle.std.specs.Prelude.{◌≡◌};
ghost use Rattle.std.specs.List.{list_all};
ghost use Rattle.sa_cond.specs.Interval.{expr_kind};
ghost use Rattle.sa_cond.specs.Typed.{can_compare, is_well_typed};
ghost use Rattle.sa_sample.specs.Sample.{sample_kinds};

use crate::kind::{comparable, has_kind};
use sa_cond::{Cond, Expr};

/// Whether a condition is well-typed over the sample, its arithmetic in the range of BIGINT.
#[cycle(typed)]
pub fn is_typed(cond: &Cond) -> bool
    ensures { result ≡ is_well_typed sample_kinds cond.now }
{
    match cond {
        Cond::Known(_) => true,
        Cond::Compare { op: _, left, right } => comparable(left, right),
        Cond::IsNull(x) => has_kind(x),
        Cond::NotNull(x) => has_kind(x),
        Cond::Between { value, low, high } => comparable(value, low) && comparable(value, high),
        Cond::Among { value, list } => has_kind(value) && all_comparable(value, list.as_slice()),
        Cond::And(members) => all_typed(members.as_slice()),
        Cond::Or(members) => all_typed(members.as_slice()),
        Cond::Not(inner) => is_typed(inner.get()),
    }
}

/// Whether all conditions are well-typed.
#[cycle(typed)]
fn all_typed(members: &[Cond]) -> bool
    ensures { result ≡ list_all (is_well_typed sample_kinds) members.now }
{
    for member in members {
        if !is_typed(member) {
            return false;
        }
    }
    true
}

/// Whether an expression may be compared with all members of a list.
fn all_comparable(value: &Expr, list: &[Expr]) -> bool
    ensures { result ≡ list_all
        (λ member. can_compare (expr_kind sample_kinds value.now) (expr_kind sample_kinds member))
        list.now }
{
    for member in list {
        if !comparable(value, member) {
            return false;
        }
    }
    true
}
