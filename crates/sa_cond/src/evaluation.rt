ghost use Rattle.std.specs.Prelude.{◌≡◌, All, map};
ghost use Rattle.sa_cond.specs.Choice.{Choice};
ghost use Rattle.sa_cond.specs.Cited.{IsThere, CanTest, cond_names};
ghost use Rattle.sa_cond.specs.Condition.{holds, all_of as all_truth, any_of as any_truth};

use crate::cells::Cells;
use crate::comparison::{compared, known};
use crate::cond::Cond;
use crate::predicate::{among, between, is_null};
use sa_value::Truth;

/// The truth of a condition.
///
/// Source: MariaDB Knowledge Base, "Comparison Operators" and "Logical Operators".
#[cycle(eval)]
pub fn eval<R: Cells>(cond: &Cond, rows: &R) -> Truth
    requires there { All (IsThere (R.has_cell rows.now) (R.has_slot rows.now)) (cond_names cond.now) }
    requires typed { CanTest
        (record { cell = R.cell_of rows.now; slot = R.slot_of rows.now }) cond.now }
    ensures { result
        ≡ holds (record { cell = R.cell_of rows.now; slot = R.slot_of rows.now }) cond.now }
{
    match cond {
        Cond::Known(truth) => *truth,
        Cond::Compare { op, left, right } => compared(*op, left, right, rows),
        Cond::IsNull(expr) => known(is_null(expr, rows)),
        Cond::NotNull(expr) => known(!is_null(expr, rows)),
        Cond::Between { value, low, high } => between(value, low, high, rows),
        Cond::Among { value, list } => among(value, list.as_slice(), rows),
        Cond::And(members) => all_of(members.as_slice(), rows),
        Cond::Or(members) => any_of(members.as_slice(), rows),
        Cond::Not(inner) => eval(inner.get(), rows).not(),
    }
}

/// The truth of an AND.
#[cycle(eval)]
fn all_of<R: Cells>(members: &[Cond], rows: &R) -> Truth
    requires there { All (λ member. All (IsThere (R.has_cell rows.now) (R.has_slot rows.now))
        (cond_names member)) members.now }
    requires typed { All (CanTest (record { cell = R.cell_of rows.now; slot = R.slot_of rows.now }))
        members.now }
    ensures { result ≡ all_truth
        (map (holds (record { cell = R.cell_of rows.now; slot = R.slot_of rows.now })) members.now) }
{
    let mut truth = Truth::True;
    for member in members {
        truth = truth.and(eval(member, rows));
        if truth == Truth::False {
            return Truth::False;
        }
    }
    truth
}

/// The truth of an OR.
#[cycle(eval)]
fn any_of<R: Cells>(members: &[Cond], rows: &R) -> Truth
    requires there { All (λ member. All (IsThere (R.has_cell rows.now) (R.has_slot rows.now))
        (cond_names member)) members.now }
    requires typed { All (CanTest (record { cell = R.cell_of rows.now; slot = R.slot_of rows.now }))
        members.now }
    ensures { result ≡ any_truth
        (map (holds (record { cell = R.cell_of rows.now; slot = R.slot_of rows.now })) members.now) }
{
    let mut truth = Truth::False;
    for member in members {
        truth = truth.or(eval(member, rows));
        if truth == Truth::True {
            return Truth::True;
        }
    }
    truth
}
