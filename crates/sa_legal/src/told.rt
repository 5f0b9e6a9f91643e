//! What is printed of legal journals.

ghost use Rattle.std.specs.Prelude.{ℕ, ◌≤◌, List, length};
ghost use Rattle.sa_plan.specs.Names.{names_of};
ghost use Rattle.sa_desk.specs.declared.entry.Entry.{Entry};
ghost use Rattle.sa_desk.specs.Legal.{Sessions, given_of, IsLegal};
ghost use Rattle.sa_worker.specs.Sound.{GivesSound};
ghost use Rattle.sa_transcript.specs.Transcript.{CanTell};
ghost use Rattle.sa_legal.specs.Shows.{ShowsLawful};

use sa_plan::Preparer;

/// Legal journals can be printed with the names of their tables: each plan that they tell is lawful
/// for these tables, and a plan that was shown stands in the journal that it was shown from.
pub fn legal_journals_can_be_told<P: Preparer>(prepare: &P)
    ensures { (sessions : Sessions) (journals : List (List Entry)) →
        ((session : ℕ) → 1 ≤ session → session ≤ length sessions.texts →
        GivesSound (P.answers prepare.now) (given_of sessions session)) →
        ShowsLawful (P.answers prepare.now) sessions.tables →
        IsLegal (P.answers prepare.now) sessions journals →
        CanTell (names_of sessions.tables) journals }
{}
