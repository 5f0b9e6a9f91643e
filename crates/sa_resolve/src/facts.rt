ghost use Rattle.std.specs.Prelude.{◌≡◌, ◌||◌, option_map};
ghost use Rattle.sa_value.specs.declared.value.Value.TheVariants.{Int};
ghost use Rattle.sa_cond.specs.Interval.{faulty, kind_of_literal, negated, of_both, reached};
ghost use Rattle.sa_resolve.specs.Fault as fault;
ghost use Rattle.sa_resolve.specs.NodeFaults.{is_faulty, is_text, leaves};
ghost use Rattle.sa_resolve.specs.Reading.{condition, value};
ghost use Rattle.sa_resolve.specs.inner.Gist.{gist_at, plain_gist, interval_by, value_fault, condition_fault, sum_fault, aggregate_fault, parts_at, no_parts, with_part, with_value, with_condition, node_gist, sums_texts, sums_at};
ghost use Rattle.sa_resolve.specs.inner.Kind.{kind_at, kind_in, kind_of_call, kinds_clash, operation_at, reach_kind, reach_leaves, sort_at};
ghost use Rattle.sa_resolve.specs.inner.Least.{fault_of, nearer, sooner};

use crate::kind::{Kind, Sort};
use crate::least::{Fault, nearer, sooner, told};
use crate::reach::{Operation, Reach};
use sa_ast::AggregateCall;
use sa_query::{Column, ResolveKind};

/// What is known of an expression before trees are made of it.
#[derive(Clone, Copy, Debug)]
pub(crate) struct Facts {
    /// Where a fault of it is shown.
    pub(crate) place: usize,
    pub(crate) sort: Sort,
    /// The place of its innermost part that is a sum, where it is one.
    pub(crate) sums: usize,
    /// The first place of an aggregate in it, or of a name that stands for one.
    pub(crate) call: Option<usize>,
    /// The column that it is, if it is one.
    pub(crate) column: Option<Column>,
    /// The fault of it that is told.
    pub(crate) fault: Option<Fault>,
}

impl Facts {
    /// A node of this sort, in which nothing is wrong and no aggregate.
    pub(crate) fn new(place: usize, sort: Sort) -> Facts
        ensures { gist_at result ≡ plain_gist place (sort_at sort) }
    {
        Facts {
            place,
            sort,
            sums: place,
            call: None,
            column: None,
            fault: None,
        }
    }

    /// A condition.
    pub(crate) fn condition(place: usize) -> Facts
        ensures { gist_at result ≡ plain_gist place condition }
    {
        Facts::new(place, Sort::Condition)
    }

    /// A value of this kind.
    pub(crate) fn value(place: usize, kind: Kind) -> Facts
        ensures { gist_at result ≡ plain_gist place (value (kind_at kind)) }
    {
        Facts::new(place, Sort::Value(kind))
    }

    /// A number as it is written.
    pub(crate) fn number(place: usize, number: i128) -> Facts
        ensures { gist_at result ≡ node_gist place (value (kind_of_literal (Int number))) no_parts
            (fault.least (fault.told (is_faulty (kind_of_literal (Int number)))
            ResolveKind.ExprRange place)) }
    {
        let kind = Kind::of_number(number);
        let is_past = kind.is_faulty();
        let own = told(is_past, ResolveKind::ExprRange, place);
        Facts::node(place, Sort::Value(kind), Parts::none(), own)
    }

    /// A name with this fault.
    pub(crate) fn wrong(place: usize, kind: ResolveKind) -> Facts
        ensures { gist_at result ≡ record (plain_gist place (value faulty)) {
          fault = Some (fault.fault_at kind place);
        } }
    {
        Facts {
            fault: Some(Fault { kind, place }),
            ..Facts::value(place, Kind::Faulty)
        }
    }

    /// A name that stands for a column.
    pub(crate) fn column(place: usize, column: Column, kind: Kind) -> Facts
        ensures { gist_at result
            ≡ record (plain_gist place (value (kind_at kind))) { column = Some column } }
    {
        Facts {
            column: Some(column),
            ..Facts::value(place, kind)
        }
    }

    /// A name, or a position, that stands for this select item. What is wrong with the item is told
    /// there.
    pub(crate) fn named(self, place: usize) -> Facts
        ensures { gist_at result ≡ record (gist_at self) {
          place = place;
          sums = place;
          call = option_map (λ _. place) self.call;
          fault = None;
        } }
    {
        Facts {
            place,
            sort: self.sort,
            sums: place,
            call: self.call.map(|_| place),
            column: self.column,
            fault: None,
        }
    }

    /// A node of this sort over these parts, with what is wrong with the node itself.
    fn node(place: usize, sort: Sort, parts: Parts, own: Option<Fault>) -> Facts
        ensures { gist_at result
            ≡ node_gist place (sort_at sort) (parts_at parts) (fault_of own) }
    {
        Facts {
            place,
            sort,
            sums: place,
            call: parts.call,
            column: None,
            fault: sooner(parts.fault, sooner(parts.wrong, own)),
        }
    }

    /// A condition over these parts, where `clashes` tells whether a number is compared with a text.
    pub(crate) fn test(place: usize, parts: Parts, clashes: bool) -> Facts
        ensures { gist_at result ≡ node_gist place condition (parts_at parts)
            (fault.least (fault.told clashes ResolveKind.TypeMismatch place)) }
    {
        let own = told(clashes, ResolveKind::TypeMismatch, place);
        Facts::node(place, Sort::Condition, parts, own)
    }

    /// A minus before this.
    pub(crate) fn negation(place: usize, x: &Facts) -> Facts
        ensures { let part = gist_at x.now in let reach = option_map negated (interval_by part) in
            gist_at result ≡ node_gist place (value (reached reach)) (with_value no_parts part)
            (sooner
            (fault.least (fault.told (is_text (kind_in part.sort)) ResolveKind.TypeMismatch place))
            (sooner (fault.least (fault.told (leaves reach) ResolveKind.ExprRange place))
            (sum_fault part))) }
    {
        let reach = Reach::of_negation(x.kind().ends());
        let parts = Parts::none().with_value(x);
        Facts::arithmetic(place, reach, parts, x.kind().is_text(), x.sum_fault())
    }

    /// An operation on these.
    pub(crate) fn operation(place: usize, operation: Operation, x: &Facts, y: &Facts) -> Facts
        ensures { let left = gist_at x.now in let right = gist_at y.now in
            let reach = of_both (operation_at operation) (interval_by left) (interval_by right) in
            gist_at result ≡ node_gist place (value (reached reach))
            (with_value (with_value no_parts left) right)
            (sooner (fault.least (fault.told
            (is_text (kind_in left.sort) || is_text (kind_in right.sort))
            ResolveKind.TypeMismatch place))
            (sooner (fault.least (fault.told (leaves reach) ResolveKind.ExprRange place))
            (sooner (sum_fault left) (sum_fault right)))) }
    {
        let reach = Reach::of_both(operation, x.kind().ends(), y.kind().ends());
        let parts = Parts::none().with_value(x).with_value(y);
        let is_text = x.kind().is_text() || y.kind().is_text();
        let summed = sooner(x.sum_fault(), y.sum_fault());
        Facts::arithmetic(place, reach, parts, is_text, summed)
    }

    /// Arithmetic over these parts, of which `is_text` tells whether one is a text, and `summed` a sum.
    fn arithmetic(
        place: usize,
        reach: Reach,
        parts: Parts,
        is_text: bool,
        summed: Option<Fault>,
    ) -> Facts
        ensures { gist_at result ≡ node_gist place (value (reach_kind reach)) (parts_at parts)
            (sooner (fault.least (fault.told is_text ResolveKind.TypeMismatch place))
            (sooner (fault.least (fault.told (reach_leaves reach) ResolveKind.ExprRange place))
            (fault_of summed))) }
    {
        let mixes = told(is_text, ResolveKind::TypeMismatch, place);
        let leaves = told(reach.leaves(), ResolveKind::ExprRange, place);
        let own = sooner(mixes, sooner(leaves, summed));
        Facts::node(place, Sort::Value(Kind::of_reach(reach)), parts, own)
    }

    /// A call of an aggregate without an argument.
    pub(crate) fn call_of_rows(place: usize, call: AggregateCall) -> Facts
        ensures { gist_at result
            ≡ record (plain_gist place (value (kind_of_call call None))) { call = Some place } }
    {
        Facts {
            call: Some(place),
            ..Facts::value(place, Kind::of_call(call, None))
        }
    }

    /// A call of an aggregate. A sum is over numbers, and no aggregate stands in another.
    pub(crate) fn call(place: usize, call: AggregateCall, x: &Facts) -> Facts
        ensures { let part = gist_at x.now in
            let kind = kind_in part.sort in
            gist_at result ≡ record (node_gist place (value (kind_of_call call (Some kind)))
            (with_value no_parts part)
            (sooner
            (fault.least (fault.told (sums_texts call kind) ResolveKind.TypeMismatch place))
            (aggregate_fault part))) {
              sums = sums_at call place part.sums;
              call = nearer (Some place) part.call;
            } }
    {
        let is_text = sums_texts(call, x.kind());
        let mixes = told(is_text, ResolveKind::TypeMismatch, place);
        let own = sooner(mixes, x.aggregate_fault());
        let sort = Sort::Value(Kind::of_call(call, Some(x.kind())));
        Facts {
            sums: sums_at(call, place, x.sums),
            call: nearer(Some(place), x.call),
            ..Facts::node(place, sort, Parts::none().with_value(x), own)
        }
    }

    /// The kind as a value.
    pub(crate) fn kind(&self) -> Kind
        ensures { kind_at result ≡ kind_in (gist_at self.now).sort }
    {
        self.sort.kind()
    }

    /// Whether one of both is a number and the other a text.
    pub(crate) fn clashes(&self, other: &Facts) -> bool
        ensures { result
            ≡ kinds_clash (kind_in (gist_at self.now).sort) (kind_in (gist_at other.now).sort) }
    {
        self.kind().clashes(other.kind())
    }

    /// A sum has no static interval: in arithmetic it leaves the range.
    fn sum_fault(&self) -> Option<Fault>
        ensures { fault_of result ≡ sum_fault (gist_at self.now) }
    {
        told(self.kind().is_sum(), ResolveKind::ExprRange, self.sums)
    }

    /// A condition where a value has to stand is of the wrong kind.
    pub(crate) fn value_fault(&self) -> Option<Fault>
        ensures { fault_of result ≡ value_fault (gist_at self.now) }
    {
        told(
            self.sort.is_condition(),
            ResolveKind::TypeMismatch,
            self.place,
        )
    }

    /// A value where a condition has to stand is of the wrong kind.
    pub(crate) fn condition_fault(&self) -> Option<Fault>
        ensures { fault_of result ≡ condition_fault (gist_at self.now) }
    {
        told(self.sort.is_value(), ResolveKind::TypeMismatch, self.place)
    }

    /// An aggregate may not stand here: it is told at its name.
    pub(crate) fn aggregate_fault(&self) -> Option<Fault>
        ensures { fault_of result ≡ aggregate_fault (gist_at self.now) }
    {
        let place = self.call?;
        Some(Fault {
            kind: ResolveKind::GroupRule,
            place,
        })
    }
}

/// What is known of all parts of a node together.
#[derive(Clone, Copy, Debug)]
pub(crate) struct Parts {
    /// The first place of an aggregate in them.
    call: Option<usize>,
    /// The fault in them that is told.
    fault: Option<Fault>,
    /// The first of them that is of the wrong kind.
    wrong: Option<Fault>,
}

impl Parts {
    pub(crate) fn none() -> Parts
        ensures { parts_at result ≡ no_parts }
    {
        Parts {
            call: None,
            fault: None,
            wrong: None,
        }
    }

    /// With one part more, which has to be a value.
    pub(crate) fn with_value(self, part: &Facts) -> Parts
        ensures { parts_at result ≡ with_value (parts_at self) (gist_at part.now) }
    {
        self.with(part, part.value_fault())
    }

    /// With one part more, which has to be a condition.
    pub(crate) fn with_condition(self, part: &Facts) -> Parts
        ensures { parts_at result ≡ with_condition (parts_at self) (gist_at part.now) }
    {
        self.with(part, part.condition_fault())
    }

    fn with(self, part: &Facts, wrong: Option<Fault>) -> Parts
        ensures { parts_at result
            ≡ with_part (parts_at self) (gist_at part.now) (fault_of wrong) }
    {
        Parts {
            call: nearer(self.call, part.call),
            fault: sooner(self.fault, part.fault),
            wrong: sooner(self.wrong, wrong),
        }
    }
}

/// Whether the call sums texts.
fn sums_texts(call: AggregateCall, kind: Kind) -> bool
    ensures { result ≡ sums_texts call (kind_at kind) }
{
    match call {
        AggregateCall::Sum => kind.is_text(),
        AggregateCall::CountRows | AggregateCall::Count | AggregateCall::Min | AggregateCall::Max =>
            false,
    }
}

/// Where a call is a sum: MIN and MAX of a sum are one that lies farther in.
fn sums_at(call: AggregateCall, place: usize, sums: usize) -> usize
    ensures { result ≡ sums_at call place sums }
{
    match call {
        AggregateCall::Min | AggregateCall::Max => sums,
        AggregateCall::CountRows | AggregateCall::Count | AggregateCall::Sum => place,
    }
}
