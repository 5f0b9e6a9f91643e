ghost use Rattle.std.specs.Prelude.{◌≡◌, List, map, if◌then◌else◌, IfOk};
ghost use Rattle.sa_value.specs.Compare.{known};
ghost use Rattle.sa_cond.specs.declared.cond.Cond.TheVariants as conditions;
ghost use Rattle.sa_table.specs.Table.{Table};
ghost use Rattle.sa_resolve.specs.Expression.{Scope as Seen, reading};
ghost use Rattle.sa_resolve.specs.Node.{turned};
ghost use Rattle.sa_resolve.specs.Reading.{Reading};
ghost use Rattle.sa_resolve.specs.Selected.{Selected};
ghost use Rattle.sa_resolve.specs.inner.Building.{IsLast};
ghost use Rattle.sa_resolve.specs.inner.Names.{Sees};
ghost use Rattle.sa_resolve.specs.inner.Walking.{AreValues};

use crate::build::Builder;
use sa_ast::{ExprNode, ExprTree, ExprTrees};
use sa_cond::{Cond, Conds, Expr, Exprs};
use sa_value::{OutOfMemory, Truth};
use sqlite_items::Boxed;

/// The truth of TRUE and FALSE.
fn known(holds: bool) -> Truth
    ensures { result ≡ known holds }
{
    if holds { Truth::True } else { Truth::False }
}

impl Builder<'_, '_, '_, '_> {
    /// What stands for an expression, if it is a condition. NULL is UNKNOWN there.
    #[cycle(cond)]
    pub(crate) fn cond(&self, tree: &ExprTree) -> Result<Cond, OutOfMemory>
        ensures { (tables : List Table) (scope : Seen) (listed : List Selected) →
            AreValues listed →
            Sees tables scope listed self.now.scope → IsLast scope listed self.now.stage →
            IfOk result (λ cond. cond ≡ (reading tables scope tree.now).cond) }
    {
        match &tree.node {
            ExprNode::Known(holds) => Ok(Cond::Known(known(*holds))),
            ExprNode::Compare { op, left, right } => Ok(Cond::Compare {
                op: *op,
                left: self.expr(left.get())?,
                right: self.expr(right.get())?,
            }),
            ExprNode::IsNull { value, negated } => self.null_test(value.get(), *negated),
            ExprNode::Between {
                value,
                low,
                high,
                negated,
            } => self.between(value.get(), low.get(), high.get(), *negated),
            ExprNode::Among {
                value,
                list,
                negated,
            } => self.among(value.get(), list, *negated),
            ExprNode::And(members) => Ok(Cond::And(self.conds(members)?)),
            ExprNode::Or(members) => Ok(Cond::Or(self.conds(members)?)),
            ExprNode::Not(x) => {
                let x = self.cond(x.get())?;
                self.negation(x)
            }
            _ => Ok(Cond::Known(Truth::Unknown)),
        }
    }

    #[cycle(cond)]
    fn conds(&self, members: &ExprTrees) -> Result<Conds, OutOfMemory>
        ensures { (tables : List Table) (scope : Seen) (listed : List Selected) →
            AreValues listed →
            Sees tables scope listed self.now.scope → IsLast scope listed self.now.stage →
            IfOk result (λ conds. conds ≡ map (λ (one : Reading). one.cond)
            (map (reading tables scope) members.now)) }
    {
        let mut conds = Vec::with_capacity(self.scope.alloc, members.len())?;
        for member in members.as_slice() {
            conds.push(self.cond(member)?)?;
        }
        Ok(Conds::from_vec(conds))
    }

    /// NOT of a condition.
    fn negation(&self, cond: Cond) -> Result<Cond, OutOfMemory>
        ensures { IfOk result (λ negation. negation ≡ conditions.Not cond) }
    {
        Ok(Cond::Not(Boxed::new(self.scope.alloc, cond)?))
    }

    /// A condition, or its NOT.
    fn turned(&self, negated: bool, positive: Cond) -> Result<Cond, OutOfMemory>
        ensures { IfOk result (λ cond. cond ≡ turned negated positive) }
    {
        if negated {
            self.negation(positive)
        } else {
            Ok(positive)
        }
    }

    /// IS NULL, or IS NOT NULL.
    fn null_test(&self, value: &ExprTree, negated: bool) -> Result<Cond, OutOfMemory>
        ensures { (tables : List Table) (scope : Seen) (listed : List Selected) →
            Sees tables scope listed self.now.scope → IsLast scope listed self.now.stage →
            IfOk result (λ cond. cond ≡ (if negated
            then conditions.NotNull (reading tables scope value.now).expr
            else conditions.IsNull (reading tables scope value.now).expr)) }
    {
        let value = self.expr(value)?;
        Ok(if negated {
            Cond::NotNull(value)
        } else {
            Cond::IsNull(value)
        })
    }

    /// BETWEEN, or its NOT.
    fn between(
        &self,
        value: &ExprTree,
        low: &ExprTree,
        high: &ExprTree,
        negated: bool,
    ) -> Result<Cond, OutOfMemory>
        ensures { (tables : List Table) (scope : Seen) (listed : List Selected) →
            Sees tables scope listed self.now.scope → IsLast scope listed self.now.stage →
            IfOk result (λ cond. cond ≡ turned negated (conditions.Between
            (reading tables scope value.now).expr (reading tables scope low.now).expr
            (reading tables scope high.now).expr)) }
    {
        let positive = Cond::Between {
            value: self.expr(value)?,
            low: self.expr(low)?,
            high: self.expr(high)?,
        };
        self.turned(negated, positive)
    }

    /// IN, or its NOT.
    fn among(&self, value: &ExprTree, list: &ExprTrees, negated: bool) -> Result<Cond, OutOfMemory>
        ensures { (tables : List Table) (scope : Seen) (listed : List Selected) →
            Sees tables scope listed self.now.scope → IsLast scope listed self.now.stage →
            IfOk result (λ cond. cond ≡ turned negated (conditions.Among
            (reading tables scope value.now).expr
            (map (λ (one : Reading). one.expr) (map (reading tables scope) list.now)))) }
    {
        let value = self.expr(value)?;
        let list = self.exprs(list)?;
        self.turned(negated, Cond::Among { value, list })
    }

    fn exprs(&self, list: &ExprTrees) -> Result<Exprs, OutOfMemory>
        ensures { (tables : List Table) (scope : Seen) (listed : List Selected) →
            Sees tables scope listed self.now.scope → IsLast scope listed self.now.stage →
            IfOk result (λ exprs. exprs ≡ map (λ (one : Reading). one.expr)
            (map (reading tables scope) list.now)) }
    {
        let mut exprs: Vec<Expr> = Vec::with_capacity(self.scope.alloc, list.len())?;
        for member in list.as_slice() {
            exprs.push(self.expr(member)?)?;
        }
        Ok(Exprs::from_vec(exprs))
    }
}
