//! What is true of each answer. Each law is a function that does nothing: its contract states it,
//! which its proof shows once and for all.

ghost use Rattle.std.specs.Prelude.{◌≡◌, ℕ, List, map, Ok};
ghost use Rattle.sa_table.specs.Table.{Table};
ghost use Rattle.sa_plan.specs.declared.plan.Planned.{Planned};
ghost use Rattle.sa_plan.specs.declared.prepared.Prepared.{Prepared};
ghost use Rattle.sa_plan.specs.declared.prepared.Work.TheVariants.{Select};
ghost use Rattle.sa_meaning.specs.Output.{output};
ghost use Rattle.sa_query.specs.Answers.{AnswersQuery};
ghost use Rattle.sa_query.specs.declared.item.Item.{Item as column};
ghost use Rattle.sa_query.specs.declared.query.Query.{Query};
ghost use Rattle.sa_prepare.specs.Answered.{AnswersText};
ghost use Rattle.sa_prepare.specs.PlanFor.{IsPlain, plan_for};
ghost use Rattle.sa_prepare.specs.Prepared.{Prepares};
ghost use Rattle.sa_prepare.specs.Sound.{IsSoundWork};

use sa_value::order_is_total;

/// What a statement that is ready to run does can be done: its plan is lawful for the tables and can be
/// run today, and its limit of row steps is from 1 to 2^40.
pub fn prepared_is_sound()
    ensures { (tables : List Table) (text : List ℕ) (prepared : Prepared) →
        Prepares tables text (Ok prepared) → IsSoundWork tables prepared.work }
{}

/// The rows of a full scan of one table answer its query, whatever its filter and its select list
/// are.
pub fn a_scan_answers_its_query()
    ensures { (query : Query) (tables : List Table) → IsPlain query →
        AnswersQuery query tables (output (plan_for tables query) tables) }
{
    order_is_total();
}

/// The rows that the plan of a SELECT gives answer the SELECT's text.
pub fn ready_selects_answer_their_texts()
    ensures { (tables : List Table) (text : List ℕ) (prepared : Prepared) (planned : Planned) →
        Prepares tables text (Ok prepared) → prepared.work ≡ Select planned →
        AnswersText tables text (map (λ (item : column). item.name) planned.plan.select)
        (output planned.plan tables) }
{
    order_is_total();
}
