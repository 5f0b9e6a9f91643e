ghost use Rattle.std.specs.Prelude.{◌≡◌, IfOk};

use crate::tree::tree;
use sa_ast::{ExprNode, ExprTree, ExprTrees};
use sa_value::OutOfMemory;
use sqlite_items::{Boxed, Items};
use std::alloc::Global;

/// What AND or OR has joined so far.
#[derive(Debug, Drop)]
pub(crate) enum Members {
    /// One member, and no AND or OR yet.
    Alone(Boxed<ExprTree>),
    /// Two members or more, and the place of the first AND or OR.
    Joined { place: usize, members: ExprTrees },
}

impl Members {
    ghost use Rattle.sa_parser.specs.Tree.{with_member, and_tree, or_tree};

    /// One more member, behind an AND or OR at this place.
    pub(crate) fn with_member(
        self,
        alloc: Global,
        place: usize,
        next: Boxed<ExprTree>,
    ) -> Result<Members, OutOfMemory>
        ensures { IfOk result (λ members. members ≡ with_member self (place, next)) }
    {
        match self {
            Members::Alone(first) => {
                let mut members = Items::new(alloc);
                members.push(first.into_inner())?;
                members.push(next.into_inner())?;
                Ok(Members::Joined { place, members })
            }
            Members::Joined { place, mut members } => {
                members.push(next.into_inner())?;
                Ok(Members::Joined { place, members })
            }
        }
    }

    /// The only member, or all of them with AND between them.
    pub(crate) fn into_and(self, alloc: Global) -> Result<Boxed<ExprTree>, OutOfMemory>
        ensures { IfOk result (λ tree. tree ≡ and_tree self) }
    {
        match self {
            Members::Alone(only) => Ok(only),
            Members::Joined { place, members } => tree(alloc, place, ExprNode::And(members)),
        }
    }

    /// The only member, or all of them with OR between them.
    pub(crate) fn into_or(self, alloc: Global) -> Result<Boxed<ExprTree>, OutOfMemory>
        ensures { IfOk result (λ tree. tree ≡ or_tree self) }
    {
        match self {
            Members::Alone(only) => Ok(only),
            Members::Joined { place, members } => tree(alloc, place, ExprNode::Or(members)),
        }
    }
}
