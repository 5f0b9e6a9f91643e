ghost use Rattle.std.specs.Prelude.{◌≡◌, IfOk};
ghost use Rattle.std.specs.Arc.{arc_value};

use crate::plan::Plan;
use sa_value::OutOfMemory;
use std::marker::Model;
use std::sync::Arc;

/// A plan that several hold. Contracts see it as the plan, wherever it lies.
#[derive(Debug, Drop)]
pub struct SharedPlan {
    plan: Arc<Plan>,
}

impl Model for SharedPlan {
    ghost use Rattle.std.specs.Arc.{arc_value};
    ghost use Rattle.sa_plan.specs.declared.plan.Plan.{Plan as plan_value};
    ghost use Rattle.std.specs.Coded.{codes};
    ghost use Rattle.sa_cond.specs.contracts.cond.Cond as cond;
    ghost use Rattle.sa_cond.specs.contracts.expr.Expr as expr;

    ghost Value = { plan_value };

    ghost coded = { Prim.hlevel (codes, cond.the_row.coded, expr.the_row.coded) };

    ghost view = { λ shared. arc_value shared.plan };
}

impl SharedPlan {
    /// The plan that is shared so. It takes no memory.
    pub fn new(plan: Arc<Plan>) -> SharedPlan
        ensures { result ≡ arc_value plan }
    {
        SharedPlan { plan }
    }

    /// The plan.
    pub fn plan(&self) -> &Plan
        ensures { result.now ≡ self.now }
    {
        &self.plan
    }

    /// The same plan for one holder more. It takes no memory, but fails where too many hold it already.
    pub fn share(&self) -> Result<SharedPlan, OutOfMemory>
        ensures { IfOk result (λ shared. shared ≡ self.now) }
    {
        Ok(SharedPlan {
            plan: self.plan.clone()?,
        })
    }
}
