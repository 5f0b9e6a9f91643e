ghost use Rattle.std.specs.Prelude.{◌≡◌};

use sa_ast::{ExprTree, ExprTrees};
use sa_value::CompareOp;
use sqlite_items::Boxed;

/// What follows the first sum of a predicate.
#[derive(Debug, Drop)]
pub(crate) enum Tail {
    Compare {
        op: CompareOp,
        right: Boxed<ExprTree>,
    },
    IsNull {
        negated: bool,
    },
    Between {
        low: Boxed<ExprTree>,
        high: Boxed<ExprTree>,
        negated: bool,
    },
    Among {
        list: ExprTrees,
        negated: bool,
    },
}

impl Tail {
    ghost use Rattle.sa_parser.specs.Tree.{negated_tail};

    /// This tail behind NOT.
    pub(crate) fn negated(self) -> Tail
        ensures { result ≡ negated_tail self }
    {
        match self {
            Tail::Between { low, high, .. } => Tail::Between {
                low,
                high,
                negated: true,
            },
            Tail::Among { list, .. } => Tail::Among {
                list,
                negated: true,
            },
            tail => tail,
        }
    }
}

/// A tail, and the place of its first word or sign.
#[derive(Debug, Drop)]
pub(crate) struct PlacedTail {
    pub(crate) place: usize,
    pub(crate) tail: Tail,
}
