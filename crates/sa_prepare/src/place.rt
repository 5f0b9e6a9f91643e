ghost use Rattle.std.specs.Prelude.{◌≡◌, ◌++◌, [], ◌∷◌, map, OnOk};
ghost use Rattle.std.specs.List.{flat_map};
ghost use Rattle.sa_prepare.specs.Unbuilt as spec;

use sa_ast::{ExprNode, ExprTree};
use sa_value::OutOfMemory;
use std::alloc::Global;
use std::marker::Model;

/// Places in a statement's text, in the order in which they were found. Contracts see them as a list.
#[derive(Debug, Drop)]
pub(crate) struct Places {
    found: Vec<usize>,
}

impl Model for Places {
    ghost use Rattle.std.specs.Prelude.{List, ℕ};

    ghost Value = { List ℕ };

    ghost view = { λ places. places.found.items };
}

impl Places {
    /// None is found.
    pub(crate) fn new(alloc: Global) -> Places
        ensures { result ≡ [] }
    {
        Places {
            found: Vec::new(alloc),
        }
    }

    /// One more.
    pub(crate) fn push(&mut self, place: usize) -> Result<(), OutOfMemory>
        ensures { OnOk result (self.new ≡ self.old ++ place ∷ []) }
    {
        self.found.push(place)?;
        Ok(())
    }

    /// The least, if there is one.
    pub(crate) fn least(&self) -> Option<usize>
        ensures { result ≡ spec.least_place self.now }
    {
        let mut least = None;
        for place in &self.found {
            least = earlier(*place, least);
        }
        least
    }

    /// The names of the aggregates in an expression.
    #[cycle(calls)]
    pub(crate) fn expr(&mut self, tree: &ExprTree) -> Result<(), OutOfMemory>
        ensures { OnOk result (self.new ≡ self.old ++ spec.calls_in tree.now) }
    {
        match &tree.node {
            ExprNode::Number(_)
            | ExprNode::Text(_)
            | ExprNode::Null
            | ExprNode::Known(_)
            | ExprNode::Name { .. } => Ok(()),
            ExprNode::Aggregate { argument: None, .. } => self.push(tree.place),
            ExprNode::Aggregate {
                argument: Some(argument),
                ..
            } => {
                self.push(tree.place)?;
                self.expr(argument.get())
            }
            ExprNode::Negate(value) | ExprNode::Not(value) | ExprNode::IsNull { value, .. } => {
                self.expr(value.get())
            }
            ExprNode::Compare { left, right, .. } => {
                self.expr(left.get())?;
                self.expr(right.get())
            }
            ExprNode::Add(left, right)
            | ExprNode::Subtract(left, right)
            | ExprNode::Multiply(left, right) => {
                self.expr(left.get())?;
                self.expr(right.get())
            }
            ExprNode::Between {
                value,
                low,
                high,
                ..
            } => {
                self.expr(value.get())?;
                self.expr(low.get())?;
                self.expr(high.get())
            }
            ExprNode::Among { value, list, .. } => {
                self.expr(value.get())?;
                self.exprs(list.as_slice())
            }
            ExprNode::And(members) | ExprNode::Or(members) => self.exprs(members.as_slice()),
        }
    }

    /// Those in several expressions.
    #[cycle(calls)]
    fn exprs(&mut self, trees: &[ExprTree]) -> Result<(), OutOfMemory>
        ensures { OnOk result (self.new ≡
            self.old ++ flat_map (λ one. one) (map spec.calls_in trees.now)) }
    {
        for tree in trees {
            self.expr(tree)?;
        }
        Ok(())
    }
}

/// The less of two places, if the second is there.
fn earlier(place: usize, other: Option<usize>) -> Option<usize>
    ensures { result ≡ spec.earlier_of place other }
{
    match other {
        None => Some(place),
        Some(other) => Some(place.min(other)),
    }
}
