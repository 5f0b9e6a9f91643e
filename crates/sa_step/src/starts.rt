//! What the sessions of a script begin with.

ghost use Rattle.std.specs.Prelude.{◌≡◌, ◌+◌, ◌*◌, ◌<◌, ◌≤◌, length, All, IfOk};
ghost use Rattle.std.specs.Arc.{arc_value};
ghost use Rattle.sa_desk.specs.New.{AreNew};
ghost use Rattle.sa_step.specs.Sessions.{MayStart, first_views};
ghost use Rattle.sa_step.specs.Starts.{desks_of, share_of, shares_for};

use sa_desk::Desk;
use sa_table::Tables;
use sa_value::{OutOfMemory, Texts};
use sa_worker::Worker;
use std::alloc::Global;
use std::collections::VecDeque;
use std::sync::Arc;

/// A new desk for each session, numbered 1, 2 and so on.
pub fn new_desks(
    alloc: Global,
    statements: &[Texts],
    quantum: u32,
    turns: u64,
) -> Result<Vec<Desk>, OutOfMemory>
    requires few { length statements.now ≤ 16 }
    requires short { All (λ texts. length texts ≤ 256) statements.now }
    requires least_quantum { 1 ≤ quantum }
    requires most_quantum { quantum ≤ 64 }
    requires least_turns { 1 ≤ turns }
    ensures desks { IfOk result (λ desks. desks.items ≡ desks_of statements.now quantum turns) }
    ensures new { IfOk result (λ desks. AreNew desks.items) }
{
    let mut desks = Vec::with_capacity(alloc, statements.len())?;
    for place in 0..statements.len() {
        let number = place as u32 + 1;
        let shares = new_shares(alloc, statements, number)?;
        desks.push(Desk::new(alloc, number, quantum, turns, &shares)?)?;
    }
    Ok(desks)
}

/// Each session's share of the desk of this number.
fn new_shares(alloc: Global, statements: &[Texts], own: u32) -> Result<Vec<u32>, OutOfMemory>
    requires few { length statements.now ≤ 16 }
    requires short { All (λ texts. length texts ≤ 256) statements.now }
    ensures { IfOk result (λ shares. shares.items ≡ shares_for statements.now own) }
{
    let mut shares = Vec::with_capacity(alloc, statements.len())?;
    for place in 0..statements.len() {
        let count = statements[place].len() as u32;
        shares.push(new_share(count, place as u32 + 1 == own))?;
    }
    Ok(shares)
}

/// The share of a session with so many statements, of its own desk or of another. A request on a desk
/// takes three entries at most, and a statement on its own desk a Begin and an End. The last is for the
/// Close.
fn new_share(count: u32, own: bool) -> u32
    requires { count ≤ 256 }
    ensures { result ≡ share_of count own }
{
    if own { 5 * count + 1 } else { 3 * count }
}

/// A worker for each session.
pub(crate) fn new_workers(
    alloc: Global,
    statements: Vec<Texts>,
    quantum: u32,
    turns: u64,
    tables: &Arc<Tables>,
) -> Result<Vec<Worker>, OutOfMemory>
    requires { length statements.items ≤ 16 }
    ensures { IfOk result (λ workers. workers.items ≡ first_views (record {
      tables = arc_value tables.now;
      texts = statements.items;
      quantum = quantum;
      turns = turns;
    })) }
{
    let mut left = VecDeque::from_vec(statements);
    let sessions = left.len() as u32;
    let mut workers = Vec::with_capacity(alloc, left.len())?;
    while let Some(texts) = left.pop_front() {
        let session = workers.len() as u32 + 1;
        let tables = tables.clone()?;
        workers.push(Worker::new(alloc, session, texts, sessions, quantum, turns, tables)?)?;
    }
    Ok(workers)
}
