//! What is true of legal journals, over all desks and sessions.

ghost use Rattle.std.specs.Prelude.{◌≡◌, ℕ, ◌≤◌, List, ◌∷◌, ◌++◌, length};
ghost use Rattle.sa_value.specs.declared.value.Value.{Value};
ghost use Rattle.sa_count.specs.declared.report.Report.{Report};
ghost use Rattle.sa_prepare.specs.Prepared.{Prepares};
ghost use Rattle.sa_desk.specs.declared.entry.Entry.{Entry};
ghost use Rattle.sa_desk.specs.declared.entry.Event.TheVariants.{End, Served};
ghost use Rattle.sa_desk.specs.declared.outcome.Outcome.{Outcome};
ghost use Rattle.sa_desk.specs.declared.outcome.Outcome.TheVariants.{Rows};
ghost use Rattle.sa_desk.specs.Legal.{Sessions, given_of, journal_at, IsLegal};
ghost use Rattle.sa_desk.specs.law.Interrupted.{EndsAsKilled};
ghost use Rattle.sa_desk.specs.program.SoFar.{terms_of};
ghost use Rattle.sa_legal.specs.Answered.{AnswersStatement};
ghost use Rattle.sa_legal.specs.Requests.{AreRequests, notes_of};
ghost use Rattle.sa_legal.specs.Rows.{HasRows};
ghost use Rattle.sa_legal.specs.Runs.{ShowsRun};

use sa_plan::Preparer;
use sa_value::order_is_total;

/// A statement that ends with rows is a SELECT, and has all rows that its plan gives over the
/// tables, whatever others ask, are answered or do meanwhile.
pub fn finished_selects_have_their_rows<P: Preparer>(prepare: &P)
    ensures { (sessions : Sessions) (journals : List (List Entry)) →
        IsLegal (P.answers prepare.now) sessions journals →
        (desk : ℕ) → 1 ≤ desk → desk ≤ length journals →
        (before rest : List Entry) (entry : Entry) →
        journal_at journals desk ≡ before ++ entry ∷ rest →
        (number steps : ℕ) (names : List (List ℕ)) (rows : List (List Value)) →
        entry.event ≡ End number (Rows names rows) steps →
        HasRows (P.answers prepare.now) (given_of sessions desk) number names rows }
{}

/// Where each text was answered as `sa_prepare` says, a statement that ends with rows is a SELECT
/// that has a query over the tables, and its rows answer that query.
pub fn finished_selects_answer_their_queries()
    ensures { (sessions : Sessions) (journals : List (List Entry)) →
        IsLegal (Prepares sessions.tables) sessions journals →
        (desk : ℕ) → 1 ≤ desk → desk ≤ length journals →
        (before rest : List Entry) (entry : Entry) →
        journal_at journals desk ≡ before ++ entry ∷ rest →
        (number steps : ℕ) (names : List (List ℕ)) (rows : List (List Value)) →
        entry.event ≡ End number (Rows names rows) steps →
        AnswersStatement (given_of sessions desk) number names rows }
{
    order_is_total();
}

/// A session's requests at a desk come one after another, each of a later statement than the one
/// before. Each is refused; or queued, answered once and taken; or queued, and spent or withdrawn.
pub fn requests_have_one_answer<P: Preparer>(prepare: &P)
    ensures { (sessions : Sessions) (journals : List (List Entry)) →
        IsLegal (P.answers prepare.now) sessions journals →
        (desk : ℕ) → 1 ≤ desk → desk ≤ length journals →
        (session : ℕ) → 1 ≤ session → session ≤ length sessions.texts →
        AreRequests 0 (notes_of session (journal_at journals desk)) }
{}

/// An answer to a request shows the plan of the statement that is on, as it was prepared, and what
/// a run of it has counted when the request was queued or at most a quantum later.
pub fn shown_plans_run<P: Preparer>(prepare: &P)
    ensures { (sessions : Sessions) (journals : List (List Entry)) →
        IsLegal (P.answers prepare.now) sessions journals →
        (desk : ℕ) → 1 ≤ desk → desk ≤ length journals →
        (before rest : List Entry) (entry : Entry) →
        journal_at journals desk ≡ before ++ entry ∷ rest →
        (asker request : ℕ) (report : Report) → entry.event ≡ Served asker request report →
        ShowsRun (P.answers prepare.now) sessions desk before entry asker request report }
{}

/// A statement ends Interrupted exactly where a kill came between its begin and its end.
pub fn interrupted_is_killed<P: Preparer>(prepare: &P)
    ensures { (sessions : Sessions) (journals : List (List Entry)) →
        IsLegal (P.answers prepare.now) sessions journals →
        (desk : ℕ) → 1 ≤ desk → desk ≤ length journals →
        (before rest : List Entry) (entry : Entry) →
        journal_at journals desk ≡ before ++ entry ∷ rest →
        (number steps : ℕ) (outcome : Outcome) → entry.event ≡ End number outcome steps →
        EndsAsKilled (terms_of (given_of sessions desk) desk) before number outcome }
{}
