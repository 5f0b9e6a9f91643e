ghost use Rattle.std.specs.Prelude.{◌≡◌, option_map, is_some, not};
ghost use Rattle.sa_cond.specs.Interval.{Interval, negated, reached, of_both, number_within};
ghost use Rattle.sa_resolve.specs.NodeFaults.{leaves};
ghost use Rattle.sa_resolve.specs.inner.Ends.{interval_at};
ghost use Rattle.sa_resolve.specs.inner.Kind.{operation_at, reach_kind, reach_leaves, found_kind};

use crate::ends::Ends;

/// What arithmetic over intervals reaches.
#[derive(Clone, Copy, Debug)]
pub(crate) enum Reach {
    /// Nothing, since an operand has no interval.
    Nothing,
    /// An interval that leaves the range of BIGINT.
    Past,
    Within(Ends),
}

/// An operation on two numbers.
#[derive(Clone, Copy, Debug)]
pub(crate) enum Operation {
    Add,
    Subtract,
    Multiply,
}

impl Reach {
    /// An interval that was found within the range of BIGINT, or else leaves it.
    fn of(ends: Option<Ends>) -> Reach
        ensures kind { reach_kind result ≡ found_kind (option_map interval_at ends) }
        ensures past { reach_leaves result ≡ not (is_some (option_map interval_at ends)) }
    {
        match ends {
            None => Reach::Past,
            Some(ends) => Reach::Within(ends),
        }
    }

    /// What a number as it is written reaches.
    #[tactic(auto, using(crate::proofs::ReachLemmas::found_kind_within, crate::proofs::ReachLemmas::leaves_within))]
    pub(crate) fn of_number(number: i128) -> Reach
        ensures kind { reach_kind result
            ≡ number_within (record { least = number; greatest = number }) }
    {
        Reach::of(Ends::within(number, number))
    }

    /// What the negation of a number reaches.
    #[tactic(auto, using(crate::proofs::ReachLemmas::found_kind_within, crate::proofs::ReachLemmas::leaves_within))]
    pub(crate) fn of_negation(x: Option<Ends>) -> Reach
        ensures kind { reach_kind result
            ≡ reached (option_map negated (option_map interval_at x)) }
        ensures past { reach_leaves result
            ≡ leaves (option_map negated (option_map interval_at x)) }
    {
        match x {
            Some(x) => Reach::of(x.negated()),
            None => Reach::Nothing,
        }
    }

    /// What an operation on two numbers reaches.
    pub(crate) fn of_both(operation: Operation, x: Option<Ends>, y: Option<Ends>) -> Reach
        ensures kind { reach_kind result ≡ reached (of_both (operation_at operation)
            (option_map interval_at x) (option_map interval_at y)) }
        ensures past { reach_leaves result ≡ leaves (of_both (operation_at operation)
            (option_map interval_at x) (option_map interval_at y)) }
    {
        match (x, y) {
            (Some(x), Some(y)) => Reach::of_ends(operation, x, y),
            _ => Reach::Nothing,
        }
    }

    #[tactic(auto, using(crate::proofs::ReachLemmas::found_kind_within, crate::proofs::ReachLemmas::leaves_within))]
    fn of_ends(operation: Operation, x: Ends, y: Ends) -> Reach
        ensures kind { reach_kind result
            ≡ number_within (operation_at operation (interval_at x) (interval_at y)) }
        ensures past { reach_leaves result
            ≡ leaves (Some (operation_at operation (interval_at x) (interval_at y))) }
    {
        match operation {
            Operation::Add => Reach::of(x.added(y)),
            Operation::Subtract => Reach::of(x.subtracted(y)),
            Operation::Multiply => Reach::of(x.multiplied(y)),
        }
    }

    /// Whether an interval is reached that leaves the range of BIGINT.
    pub(crate) fn leaves(self) -> bool
        ensures { result ≡ reach_leaves self }
    {
        matches!(self, Reach::Past)
    }
}
