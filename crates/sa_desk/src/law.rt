//! What is true of every journal that a desk may write. Each law is a function that does nothing: its
//! contract states the law, which its proof shows once and for all.

ghost use Rattle.std.specs.Prelude.{◌≡◌, ◌≢◌, ℕ, true, List, ◌∷◌, ◌++◌, None, All};
ghost use Rattle.sa_count.specs.declared.report.Report.{Report};
ghost use Rattle.sa_desk.specs.declared.entry.Entry.{Entry};
ghost use Rattle.sa_desk.specs.declared.entry.Event.TheVariants.{End, Served};
ghost use Rattle.sa_desk.specs.declared.outcome.Outcome.{Outcome};
ghost use Rattle.sa_desk.specs.State.{Terms};
ghost use Rattle.sa_desk.specs.Runs.{IsDeskRun, state_of};
ghost use Rattle.sa_desk.specs.Contents.{Contents};
ghost use Rattle.sa_desk.specs.Serving.{is_killed};
ghost use Rattle.sa_desk.specs.World.{World, made_by, Meets, IsCall};
ghost use Rattle.sa_desk.specs.Own.{outline, free, own_from, request_from, HasOpen};
ghost use Rattle.sa_desk.specs.law.Answered.{IsAnswered};
ghost use Rattle.sa_desk.specs.law.Others.{StaysFor};
ghost use Rattle.sa_desk.specs.law.Interrupted.{EndsAsKilled};
ghost use Rattle.sa_desk.specs.law.Talk.{IsTalk, nothing_open, words};
ghost use Rattle.sa_desk.specs.law.Shown.{IsShown};

/// A statement ends Interrupted exactly where a kill came between its begin and its end.
pub fn interrupted_is_killed()
    ensures { (terms : Terms) (journal before rest : List Entry) (entry : Entry) →
        IsDeskRun terms journal → journal ≡ before ++ entry ∷ rest →
        (number steps : ℕ) (outcome : Outcome) → entry.event ≡ End number outcome steps →
        EndsAsKilled terms before number outcome }
{}

/// A session's requests at a desk come one after another, and each is answered and taken, is spent or is
/// withdrawn before the next.
pub fn requests_end_once()
    ensures { (terms : Terms) (journal : List Entry) (session : ℕ) →
        IsDeskRun terms journal → IsTalk nothing_open (words session journal) }
{}

/// An answer is the desk's own session's. It shows the plan that runs, and what it has counted after a
/// number of steps that is at most a quantum above the one at which the request was queued.
pub fn shown_plan_runs()
    ensures { (terms : Terms) (journal before rest : List Entry) (entry : Entry) →
        IsDeskRun terms journal → journal ≡ before ++ entry ∷ rest →
        (asker request : ℕ) (report : Report) → entry.event ≡ Served asker request report →
        IsShown terms before entry asker request report }
{}

/// What is on at a desk, but for what others change of it, is what its own session's entries tell.
pub fn outline_is()
    ensures { (terms : Terms) (journal : List Entry) → IsDeskRun terms journal →
        outline (state_of terms journal).phase ≡ own_from free (made_by terms.desk journal) }
{}

/// Which request of a session is open at a desk is what that session's own entries tell.
pub fn request_is()
    ensures { (terms : Terms) (journal : List Entry) (session : ℕ) → IsDeskRun terms journal →
        HasOpen (request_from None (made_by session journal)) session (state_of terms journal) }
{}

/// Each answer that waits to be taken comes from a Served entry, under the Begin that it names.
pub fn reply_is_served()
    ensures { (terms : Terms) (journal : List Entry) → IsDeskRun terms journal →
        All (λ reply. IsAnswered terms journal reply.asker reply.request reply.report reply.begin)
        (state_of terms journal).replies }
{}

/// A kill of the statement that is on stands whatever others do.
pub fn kill_stays()
    ensures { (terms : Terms) (journal others : List Entry) → IsDeskRun terms (journal ++ others) →
        All (λ entry. entry.actor ≢ terms.desk) others →
        is_killed (state_of terms journal).phase ≡ true →
        is_killed (state_of terms (journal ++ others)).phase ≡ true }
{}

/// A call of another session leaves what a session knows, but that journals grow by entries of others.
pub fn others_keep()
    ensures { (before later : World) (desk other : ℕ) (entries : List Entry) (left : Contents) →
        IsCall before later desk other entries left → (session at : ℕ) → session ≢ other →
        Meets before at session → Meets later at session → StaysFor before later session at }
{}
