//! What is true of the workers of all sessions and the desks that they call. Each law is a function that
//! does nothing: its contract states the law, which its proof shows once and for all.

ghost use Rattle.std.specs.Prelude.{◌≡◌, ℕ, ◌≤◌, List, length, map};
ghost use Rattle.sa_desk.specs.declared.entry.Entry.{Entry};
ghost use Rattle.sa_desk.specs.Contents.{Contents};
ghost use Rattle.sa_desk.specs.Legal.{Sessions, given_of, IsLegal};
ghost use Rattle.sa_desk.specs.Plain.{Plain, world_of, IsPlain};
ghost use Rattle.sa_desk.specs.World.{World, IsFirst, IsCall, next_stamp};
ghost use Rattle.sa_desk.specs.program.Course.{Answer};
ghost use Rattle.sa_desk.specs.program.Prepares.{IsAnswer};
ghost use Rattle.sa_desk.specs.program.Turn.{made, left};
ghost use Rattle.sa_worker.specs.View.{View, done, text_at, first_view, me_of, IsActive, call_at, desk_at};
ghost use Rattle.sa_worker.specs.Next.{next_view};
ghost use Rattle.sa_worker.specs.Works.{Works};
ghost use Rattle.sa_worker.specs.Holds.{IsGiven, IsSoundAnswer};
ghost use Rattle.sa_worker.specs.Keeps.{Suits};
ghost use Rattle.sa_worker.specs.Follows.{Follows, StandsSo};
ghost use Rattle.sa_worker.specs.Working.{AreWorking, with_view};

use sa_plan::Preparer;

/// Before anybody has called, each session's worker is at its beginning, where the desks suit it.
pub fn workers_begin<P: Preparer>(prepare: &P)
    ensures { (world : World) (sessions : Sessions) → IsFirst world →
        ((session : ℕ) → 1 ≤ session → session ≤ length sessions.texts →
        IsGiven (given_of sessions session) × Suits world (given_of sessions session)) →
        AreWorking (P.answers prepare.now) sessions world
        (λ session. first_view (given_of sessions session)) }
{}

/// The private work of one worker leaves all sessions where they stand.
pub fn worker_prepares<P: Preparer>(prepare: &P)
    ensures { (sessions : Sessions) (world : World) (views : ℕ → View) →
        AreWorking (P.answers prepare.now) sessions world views →
        (session : ℕ) → 1 ≤ session → session ≤ length sessions.texts → (later : View) →
        ((answer : Answer) → IsAnswer (P.answers prepare.now) (text_at (views session)) answer →
        IsSoundAnswer (views session).given answer) →
        Works (P.answers prepare.now) (views session) later →
        AreWorking (P.answers prepare.now) sessions world (with_view views session later) }
{}

/// The call of one worker leads its session on, and leaves the others where they stand.
pub fn worker_calls<P: Preparer>(prepare: &P)
    ensures { (sessions : Sessions) (world : World) (views : ℕ → View) →
        AreWorking (P.answers prepare.now) sessions world views →
        (session : ℕ) → 1 ≤ session → session ≤ length sessions.texts → (later : World) →
        let view = views session in
        let desk = world.contents (desk_at view view.stage) in
        let stamp = next_stamp world (me_of view) in
        IsActive view.stage →
        IsCall world later (desk_at view view.stage) view.given.session
        (made desk stamp view.number (call_at view view.stage))
        (left desk stamp view.number (call_at view view.stage)) →
        AreWorking (P.answers prepare.now) sessions later
        (with_view views session (next_view view desk stamp)) }
{}

/// Where a worker stands, its session's entries are exactly those of its program so far.
pub fn entries_are_so_far()
    ensures { (view : View) (journals : ℕ → List Entry) (answers : List Answer) (mine : List Entry) →
        Follows view journals answers mine → StandsSo view view.stage journals answers mine }
{}

/// Where the workers of all sessions are done, the desks' journals are legal: each is one that its desk
/// may write, and each session has made the entries of its program.
pub fn journals_are_legal<P: Preparer>(prepare: &P)
    ensures { (sessions : Sessions) (plain : Plain) (views : ℕ → View) →
        IsPlain plain → length plain.desks ≡ length sessions.texts →
        AreWorking (P.answers prepare.now) sessions (world_of plain) views →
        ((session : ℕ) → 1 ≤ session → session ≤ length sessions.texts →
        (views session).stage ≡ done) →
        IsLegal (P.answers prepare.now) sessions
        (map (λ (desk : Contents). desk.journal) plain.desks) }
{}
