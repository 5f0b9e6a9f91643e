ghost use Rattle.std.specs.Prelude.{◌≡◌, ◌+◌, ◌-◌, ◌<◌, ◌≤◌, ◌^◌, slice_index_or, slice_set, None};
ghost use Rattle.arrayvec.specs.ArrayVec.{array_vec_len};
ghost use Rattle.sa_desk.specs.inner.Parts.{answer_to_look, event_list};
ghost use Rattle.sa_desk.specs.call.Look.{looks_of, look_events, wait_after};

use crate::answer::Looked;
use crate::desk::parts::is_over;
use crate::entry::{Event, RefusedWhy};
use crate::phase::Phase;
use crate::request::OpenWait;
use arrayvec::ArrayVec;

/// How often the session's open wait has looked, if it is of this statement and for these steps.
pub fn looks_of(
    waits: &ArrayVec<Option<OpenWait>, 16>,
    session: u32,
    statement: u32,
    at: u64,
) -> u64
    requires least { 1 ≤ session }
    requires most { session ≤ array_vec_len waits.now }
    ensures { result ≡ looks_of (slice_index_or waits.now.items (session - 1) None) statement at }
{
    let open = waits[(session - 1) as usize];
    match open {
        Some(wait) if wait.statement == statement && wait.at == at => wait.looks,
        _ => 0,
    }
}

/// Opens the session's wait, or ends it.
pub fn set_wait(waits: &mut ArrayVec<Option<OpenWait>, 16>, session: u32, wait: Option<OpenWait>)
    requires least { 1 ≤ session }
    requires most { session ≤ array_vec_len waits.old }
    ensures { waits.new.items ≡ slice_set waits.old.items (session - 1) wait }
{
    waits[(session - 1) as usize] = wait;
}

/// What a look is answered in this phase, after so many looks without an answer.
pub fn look_in(phase: Phase, at: u64, published: u64, looks: u64, turns: u64) -> Looked
    requires { looks < turns }
    ensures { result ≡ answer_to_look phase at published looks turns }
{
    if is_over(phase) {
        Looked::NoSuchThread
    } else if at <= published {
        Looked::Reached { steps: published }
    } else if looks + 1 < turns {
        Looked::NotYet
    } else {
        Looked::Spent {
            steps: published,
            turns,
        }
    }
}

/// The wait after this answer.
pub fn wait_after(looked: Looked, statement: u32, at: u64, looks: u64) -> Option<OpenWait>
    requires { looks + 1 < 2 ^ 64 }
    ensures { result ≡ wait_after looked statement at looks }
{
    match looked {
        Looked::NotYet => Some(OpenWait {
            statement,
            at,
            looks: looks + 1,
        }),
        Looked::NoSuchThread | Looked::Reached { .. } | Looked::Spent { .. } => None,
    }
}

/// The entry's event for a look that was answered so, if it makes one.
pub fn look_event(looked: Looked, statement: u32) -> Option<Event>
    ensures { event_list result ≡ look_events looked statement }
{
    match looked {
        Looked::NoSuchThread => Some(Event::Refused {
            statement,
            why: RefusedWhy::NoSuchThread,
        }),
        Looked::Reached { steps } => Some(Event::Waited { statement, steps }),
        Looked::Spent { steps, turns } => Some(Event::WaitSpent {
            statement,
            steps,
            turns,
        }),
        Looked::NotYet => None,
    }
}
