ghost use Rattle.std.specs.Prelude.{◌≡◌, ℕ, ◌+◌, ◌<◌, ◌≤◌, ◌^◌, ◌++◌, [], ◌∷◌, length, sum, replicate, All, None, ◌||◌};
ghost use Rattle.std.specs.Vec.{vec_len, vec_capacity};
ghost use Rattle.arrayvec.specs.ArrayVec.{array_vec_len};
ghost use Rattle.sa_desk.specs.declared.entry.Entry as declared;
ghost use Rattle.sa_desk.specs.call.Ask.{ask_event};
ghost use Rattle.sa_desk.specs.After.{dooms};
ghost use Rattle.sa_desk.specs.inner.Parts.{answer_in, put_last, begun_with, kill_stands, begin_in, killed_in, is_over};

use crate::answer::Asked;
use crate::entry::{Entry, Event, RefusedWhy};
use crate::phase::{On, Phase};
use crate::request::{OpenWait, Request};
use crate::stamp::Stamp;
use arrayvec::ArrayVec;
use sa_ast::{AskKind, KillKind};

/// The shares, in a list of its own.
pub fn shares_of(shares: &[u32]) -> ArrayVec<u32, 16>
    requires { length shares.now ≤ 16 }
    ensures { result.items ≡ shares.now }
{
    let mut copied = ArrayVec::new();
    for share in shares {
        copied.push(*share);
    }
    copied
}

/// How many entries all shares together have.
pub fn room_for(shares: &[u32]) -> usize
    requires few { length shares.now ≤ 16 }
    requires small { All (λ share. share ≤ 65536) shares.now }
    ensures room { result ≡ sum shares.now }
    ensures few { result ≤ 2 ^ 20 }
{
    let mut room = 0;
    for share in shares {
        room += *share as usize;
    }
    room
}

/// No polls for each of so many sessions.
pub fn no_polls(sessions: usize) -> ArrayVec<u64, 16>
    requires { sessions ≤ 16 }
    ensures { result.items ≡ replicate sessions 0 }
{
    let mut polls = ArrayVec::new();
    for _ in 0..sessions {
        polls.push(0);
    }
    polls
}

/// No open wait for each of so many sessions.
pub fn no_waits(sessions: usize) -> ArrayVec<Option<OpenWait>, 16>
    requires { sessions ≤ 16 }
    ensures { result.items ≡ replicate sessions None }
{
    let mut waits = ArrayVec::new();
    for _ in 0..sessions {
        waits.push(None);
    }
    waits
}

/// Puts an entry of the caller at the end of the journal, in the room that is reserved.
pub fn push_entry(journal: &mut Vec<Entry>, desk: u32, stamp: Stamp, event: Event)
    requires { vec_len journal.old < vec_capacity journal.old }
    ensures entry { let entry : declared.Entry =
        record { desk = desk; actor = stamp.actor; seq = stamp.seq; turn = stamp.turn; event = event } in
        journal.new.items ≡ journal.old.items ++ entry ∷ [] }
    ensures capacity { vec_capacity journal.new ≡ vec_capacity journal.old }
{
    journal.push_reserved(Entry {
        desk,
        actor: stamp.actor,
        seq: stamp.seq,
        turn: stamp.turn,
        event,
    });
}

/// What a request is answered in this phase.
pub fn answer_in(phase: Phase) -> Asked
    ensures { result ≡ answer_in phase }
{
    match phase {
        Phase::Idle | Phase::Unplanned(_) => Asked::NotExplainable,
        Phase::Planned(_) => Asked::Queued,
        Phase::Closed => Asked::NoSuchThread,
    }
}

/// Puts the request last in the queue where that is the answer.
pub fn put_last(asked: Asked, request: Request, queue: &mut ArrayVec<Request, 16>)
    requires { array_vec_len queue.old < 16 }
    ensures { queue.new.items ≡ put_last asked request queue.old.items }
{
    if asked == Asked::Queued {
        queue.push(request);
    }
}

/// The phase of a statement that has begun.
pub fn begun_with(planned: bool, on: On) -> Phase
    ensures { result ≡ begun_with planned on }
{
    if planned {
        Phase::Planned(on)
    } else {
        Phase::Unplanned(on)
    }
}

/// Whether a kill stands for the statement that is on.
pub fn kill_stands(phase: Phase) -> bool
    ensures { result ≡ kill_stands phase }
{
    match phase {
        Phase::Unplanned(on) | Phase::Planned(on) => on.killed,
        Phase::Idle | Phase::Closed => false,
    }
}

/// The number of the Begin entry of the statement that is on.
pub fn begin_in(phase: Phase) -> u32
    ensures { result ≡ begin_in phase }
{
    match phase {
        Phase::Unplanned(on) | Phase::Planned(on) => on.begin,
        Phase::Idle | Phase::Closed => 0,
    }
}

/// The entry's event for a request that was answered so.
pub fn ask_event(asked: Asked, statement: u32, kind: AskKind, at: u64, budget: u64) -> Event
    ensures { result ≡ ask_event asked statement kind at budget }
{
    match asked {
        Asked::Queued => Event::Queued {
            statement,
            kind,
            at,
            budget,
        },
        Asked::NotExplainable => Event::Refused {
            statement,
            why: RefusedWhy::NotExplainable,
        },
        Asked::NoSuchThread => Event::Refused {
            statement,
            why: RefusedWhy::NoSuchThread,
        },
    }
}

/// Whether the session is done.
pub fn is_over(phase: Phase) -> bool
    ensures { result ≡ is_over phase }
{
    match phase {
        Phase::Closed => true,
        Phase::Idle | Phase::Unplanned(_) | Phase::Planned(_) => false,
    }
}

/// The phase in which the statement that is on, if one is, is killed.
pub fn killed_in(phase: Phase) -> Phase
    ensures { result ≡ killed_in phase }
{
    match phase {
        Phase::Unplanned(on) => Phase::Unplanned(On { killed: true, ..on }),
        Phase::Planned(on) => Phase::Planned(On { killed: true, ..on }),
        Phase::Idle | Phase::Closed => phase,
    }
}

/// Whether a KILL CONNECTION stands after a kill of this kind.
pub fn doomed_by(doomed: bool, kind: KillKind) -> bool
    ensures { result ≡ (doomed || dooms kind) }
{
    match kind {
        KillKind::Query => doomed,
        KillKind::Connection => true,
    }
}
