//! What is true of the simplified form of every condition. Each law is a function that does nothing: its
//! contract states the law, which its proof shows once and for all.

ghost use Rattle.std.specs.Prelude.{◌≡◌, ◌↔◌, true, List, Contains};
ghost use Rattle.sa_value.specs.declared.truth.Truth.TheVariants.{True};
ghost use Rattle.sa_cond.specs.declared.cond.Cond.{Cond as condition};
ghost use Rattle.sa_cond.specs.Choice.{Choice};
ghost use Rattle.sa_cond.specs.Cited.{Name, cond_names};
ghost use Rattle.sa_cond.specs.Condition.{holds};
ghost use Rattle.sa_cond.specs.Interval.{CellKinds};
ghost use Rattle.sa_cond.specs.Typed.{is_well_typed};
ghost use Rattle.sa_simplify.specs.Propagate.{HandsOn, handed_all};
ghost use Rattle.sa_simplify.specs.Simple.{simple};

use sa_value::order_is_total;

/// The simplified form is TRUE on exactly the choices on which the condition is.
pub fn simple_is_true_alike()
    ensures { (choice : Choice) (cond : condition) →
        (holds choice (simple cond) ≡ True) ↔ (holds choice cond ≡ True) }
{
    order_is_total();
}

/// The simplified form is well-typed with all kinds with which the condition is.
pub fn simple_is_typed()
    ensures { (kinds : CellKinds) (cond : condition) →
        is_well_typed kinds cond ≡ true → is_well_typed kinds (simple cond) ≡ true }
{}

/// The simplified form names no column and no slot that the condition doesn't name.
pub fn simple_names_no_more()
    ensures { (cond : condition) (name : Name) →
        Contains (cond_names (simple cond)) name → Contains (cond_names cond) name }
{}

/// Equalities are handed on until there is none left to hand on.
pub fn equalities_are_handed_on()
    ensures { (conjuncts : List condition) → HandsOn conjuncts (handed_all conjuncts) }
{}

/// Simplifying the simplified form again changes nothing.
pub fn simple_is_stable()
    ensures { (cond : condition) → simple (simple cond) ≡ simple cond }
{}
