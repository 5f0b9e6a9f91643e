ghost use Rattle.std.specs.Prelude.{◌≡◌, option_map};
ghost use Rattle.sa_value.specs.declared.value.Value.TheVariants.{Int};
ghost use Rattle.sa_cond.specs.Interval.{interval_of, kind_of_cell, kind_of_literal};
ghost use Rattle.sa_query.specs.Kinds.{cells_of};
ghost use Rattle.sa_resolve.specs.Node.{extreme};
ghost use Rattle.sa_resolve.specs.NodeFaults.{is_condition, is_faulty, is_number, is_sum, is_text, is_value};
ghost use Rattle.sa_resolve.specs.inner.Ends.{interval_at};
ghost use Rattle.sa_resolve.specs.inner.Kind.{kind_at, sort_at, reach_kind, is_null, kind_in, kind_of_call, kinds_clash};

use crate::ends::Ends;
use crate::reach::Reach;
use sa_ast::AggregateCall;
use sa_table::ColumnKind;

/// The greatest count: the product of tables has no more rows.
const MOST_ROWS: i64 = 1_099_511_627_776;

/// What an expression is.
#[derive(Clone, Copy, Debug)]
pub(crate) enum Sort {
    Condition,
    Value(Kind),
}

/// What the values of an expression can be.
#[derive(Clone, Copy, Debug)]
pub(crate) enum Kind {
    Number(Ends),
    /// A sum, which has no static interval.
    Sum,
    Text,
    /// NULL alone, which counts as 0.
    Null,
    /// Nothing, since a part of the expression is wrong.
    Faulty,
}

impl Kind {
    /// The kind of a column.
    pub(crate) fn of_column(kind: ColumnKind) -> Kind
        ensures { kind_at result ≡ kind_of_cell (cells_of kind) }
    {
        match kind {
            ColumnKind::Int => Kind::Number(Ends {
                least: -2_147_483_648,
                greatest: 2_147_483_647,
            }),
            ColumnKind::BigInt => Kind::Number(Ends {
                least: i64::MIN,
                greatest: i64::MAX,
            }),
            ColumnKind::VarChar(_) => Kind::Text,
        }
    }

    /// The kind of a number as it is written.
    pub(crate) fn of_number(number: i128) -> Kind
        ensures { kind_at result ≡ kind_of_literal (Int number) }
    {
        Kind::of_reach(Reach::of_number(number))
    }

    /// The kind of what arithmetic reaches.
    pub(crate) fn of_reach(reach: Reach) -> Kind
        ensures { kind_at result ≡ reach_kind reach }
    {
        match reach {
            Reach::Within(ends) => Kind::Number(ends),
            Reach::Nothing | Reach::Past => Kind::Faulty,
        }
    }

    /// What an aggregate gives, by the kind of its argument.
    pub(crate) fn of_call(call: AggregateCall, argument: Option<Kind>) -> Kind
        ensures { kind_at result ≡ kind_of_call call (option_map kind_at argument) }
    {
        match call {
            AggregateCall::CountRows | AggregateCall::Count => Kind::Number(Ends {
                least: 0,
                greatest: MOST_ROWS,
            }),
            AggregateCall::Sum => Kind::Sum,
            AggregateCall::Min | AggregateCall::Max => Kind::of_extreme(argument),
        }
    }

    /// What MIN or MAX gives; NULL counts as 0.
    fn of_extreme(argument: Option<Kind>) -> Kind
        ensures { kind_at result ≡ extreme (option_map kind_at argument) }
    {
        match argument {
            None => Kind::Faulty,
            Some(Kind::Null) => Kind::Number(Ends {
                least: 0,
                greatest: 0,
            }),
            Some(kind) => kind,
        }
    }

    /// The static interval of a kind, where it has one.
    pub(crate) fn ends(self) -> Option<Ends>
        ensures { option_map interval_at result ≡ interval_of (kind_at self) }
    {
        match self {
            Kind::Number(ends) => Some(ends),
            Kind::Null => Some(Ends {
                least: 0,
                greatest: 0,
            }),
            Kind::Sum | Kind::Text | Kind::Faulty => None,
        }
    }

    pub(crate) fn is_text(self) -> bool
        ensures { result ≡ is_text (kind_at self) }
    {
        matches!(self, Kind::Text)
    }

    pub(crate) fn is_sum(self) -> bool
        ensures { result ≡ is_sum (kind_at self) }
    {
        matches!(self, Kind::Sum)
    }

    pub(crate) fn is_faulty(self) -> bool
        ensures { result ≡ is_faulty (kind_at self) }
    {
        matches!(self, Kind::Faulty)
    }

    fn is_null(self) -> bool
        ensures { result ≡ is_null (kind_at self) }
    {
        matches!(self, Kind::Null)
    }

    fn is_number(self) -> bool
        ensures { result ≡ is_number (kind_at self) }
    {
        matches!(self, Kind::Number(_) | Kind::Sum)
    }

    /// Whether a number is compared with a text.
    pub(crate) fn clashes(self, other: Kind) -> bool
        ensures { result ≡ kinds_clash (kind_at self) (kind_at other) }
    {
        (self.is_text() && other.is_number()) || (self.is_number() && other.is_text())
    }
}

impl Sort {
    /// The kind as a value.
    pub(crate) fn kind(self) -> Kind
        ensures { kind_at result ≡ kind_in (sort_at self) }
    {
        match self {
            Sort::Condition => Kind::Faulty,
            Sort::Value(kind) => kind,
        }
    }

    /// Whether it can't stand for a value.
    pub(crate) fn is_condition(self) -> bool
        ensures { result ≡ is_condition (sort_at self) }
    {
        matches!(self, Sort::Condition)
    }

    /// Whether it can't stand for a condition; NULL can stand for both.
    pub(crate) fn is_value(self) -> bool
        ensures { result ≡ is_value (sort_at self) }
    {
        match self {
            Sort::Condition => false,
            Sort::Value(kind) => !kind.is_null(),
        }
    }
}
