ghost use Rattle.std.specs.Prelude.{ℕ, List};
ghost use Rattle.std.specs.declared.result.Result.{Result as outcome};
ghost use Rattle.sa_query.specs.declared.refusal.Refusal.{Refusal as refusal};
ghost use Rattle.sa_plan.specs.declared.prepared.Prepared.{Prepared as prepared};
ghost use Rattle.sa_plan.specs.Answer.{MayAnswer};

use crate::prepared::Prepared;
use sa_query::Refusal;
use std::alloc::Global;

/// Who makes a statement ready to run from its text, or says why it can't be.
pub trait Preparer {
    /// The preparer gives this answer to this text, unless memory runs out.
    ghost answers: { Self → List ℕ → outcome prepared refusal → Type 0 };

    /// The statement of this text, ready to run. It takes memory from `alloc`.
    fn prepare(&self, alloc: Global, text: &str) -> Result<Prepared, Refusal>
        ensures { MayAnswer (answers self.now text.now) result };
}
