//! What every run of a script has to keep: the numbers of entries, the answers to requests, and which
//! statements end interrupted.

use sa_desk::{Entries, Entry, Event, Journals, Outcome};

/// The most sessions of a script.
const SESSIONS: u32 = 16;

/// Whether the entries of each session, over all desks, are numbered 1, 2 and so on, each once.
pub(crate) fn are_numbered(journals: &Journals) -> bool {
    for session in 0..SESSIONS {
        let actor = session + 1;
        for made in 0..count_of(journals, actor) {
            if count_numbered(journals, actor, made + 1) != 1 {
                return false;
            }
        }
    }
    true
}

/// How many entries a session has made.
fn count_of(journals: &Journals, actor: u32) -> u32 {
    let mut count: u32 = 0;
    for journal in journals.as_slice() {
        for entry in journal.as_slice() {
            if entry.actor == actor {
                count = count.saturating_add(1);
            }
        }
    }
    count
}

/// How many entries of a session have this number.
fn count_numbered(journals: &Journals, actor: u32, seq: u32) -> u32 {
    let mut count: u32 = 0;
    for journal in journals.as_slice() {
        for entry in journal.as_slice() {
            if entry.actor == actor && entry.seq == seq {
                count = count.saturating_add(1);
            }
        }
    }
    count
}

/// Whether each request of a journal has one answer behind it, and one that was taken was served.
pub(crate) fn are_answered(journal: &Entries) -> bool {
    let entries = journal.as_slice();
    for (index, entry) in entries.iter().enumerate() {
        if let Event::Queued { statement, .. } = &entry.event {
            let (ends, served) = answers(entries, index, entry.actor, *statement);
            if ends != 1 || !served {
                return false;
            }
        }
    }
    true
}

/// How many entries behind a request end it, and whether a taken one was served.
fn answers(entries: &[Entry], from: usize, asker: u32, request: u32) -> (u32, bool) {
    let mut ends: u32 = 0;
    let mut served: u32 = 0;
    let mut taken: u32 = 0;
    for (index, entry) in entries.iter().enumerate() {
        if index <= from {
            continue;
        }
        let own = entry.actor == asker;
        match &entry.event {
            Event::Served {
                asker: to,
                request: number,
                ..
            } if *to == asker && *number == request => served = served.saturating_add(1),
            Event::Taken { statement } if own && *statement == request => {
                ends = ends.saturating_add(1);
                taken = taken.saturating_add(1);
            }
            Event::Spent { statement, .. } | Event::Withdrawn { statement }
                if own && *statement == request => { ends = ends.saturating_add(1) }
            _ => {}
        }
    }
    (ends, taken == 0 || served == 1)
}

/// Whether a statement ends interrupted exactly where a kill stands between its Begin and its End.
pub(crate) fn are_killed(journal: &Entries) -> bool {
    let mut killed = false;
    for entry in journal.as_slice() {
        match &entry.event {
            Event::Begin { .. } => killed = false,
            Event::KillSent { .. } => killed = true,
            Event::End { outcome, .. } => {
                if matches!(outcome, Outcome::Interrupted) != killed {
                    return false;
                }
            }
            _ => {}
        }
    }
    true
}
