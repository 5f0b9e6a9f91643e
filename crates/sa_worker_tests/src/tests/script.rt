//! A script and how it is played on one thread.

ghost use Rattle.std.specs.Prelude.{◌≡◌, ◌≤◌, length, All, IsTrue, IfOk};
ghost use Rattle.std.specs.Arc.{arc_value};
ghost use Rattle.sa_step.specs.Sessions.{AreRunning};
ghost use Rattle.sa_worker_tests.specs.Listed.{listed as listed_answers};

use crate::tests::lines::lines;
use crate::tests::listed::Listed;
use crate::tests::query::tables;
use sa_step::Sessions;
use sa_table::Tables;
use sa_value::{OutOfMemory, Text, Texts};
use sa_worker::Turned;
use std::alloc::Global;
use std::sync::Arc;
use std::test::Fail;

/// The sessions with their statements, and how they take turns.
#[derive(Clone, Copy, Debug)]
pub struct Script<'a> {
    pub name: &'a str,
    /// The statements of each session.
    pub sessions: &'a [&'a [&'a str]],
    /// How many steps a turn makes at most.
    pub quantum: u32,
    /// How many turns a request or a wait lasts.
    pub turns: u64,
    /// Which sessions take the first turns. After them come rounds of all.
    pub schedule: &'a [u32],
}

/// The query of the scripts. Its run has six items: Open, Read, Read, Emit, Read, Emit.
pub const QUERY: &str = "SELECT a FROM t WHERE a >= 2";

/// The numbers that sessions may have.
const ALL: [u32; 16] = [1, 2, 3, 4, 5, 6, 7, 8, 9, 10, 11, 12, 13, 14, 15, 16];

/// Fails unless the script's journals are these lines, each journal below a line with its desk's
/// number.
pub fn compare(alloc: Global, script: Script<'_>, expected: &[&str]) -> Result<(), Fail> {
    let played = play(alloc, script)?;
    compare_lines(alloc, script, &played.journals, expected)
}

/// Fails unless the turns of each session have answered so, in their order: `.` for more, `w` for
/// waiting and `d` for done.
pub fn compare_answers(alloc: Global, script: Script<'_>, expected: &[&str]) -> Result<(), Fail> {
    let played = play(alloc, script)?;
    compare_lines(alloc, script, &played.answers, expected)
}

/// Fails with the script unless what was found is what was expected.
fn compare_lines(
    alloc: Global,
    script: Script<'_>,
    found: &[String],
    expected: &[&str],
) -> Result<(), Fail> {
    let mut same = found.len() == expected.len();
    for (line, wanted) in found.iter().zip(expected) {
        same = same && line.as_str() == *wanted;
    }
    if same {
        return Ok(());
    }
    Err(Fail::from(format!(in alloc; "{script:?}: {found:?} in place of {expected:?}")?))
}

/// What came of a script: its journals, and what the turns of each session have answered.
#[derive(Debug, Drop)]
struct Played {
    journals: Vec<String>,
    answers: Vec<String>,
}

/// Plays the script. An error where it is past a limit, or a session isn't done after 64 rounds.
fn play(alloc: Global, script: Script<'_>) -> Result<Played, Fail> {
    let tables = tables(alloc)?;
    let listed = Listed::new(tables.clone()?);
    let statements = statements_of(alloc, script.sessions)?;
    let mut sessions = start(
        alloc,
        &listed,
        tables,
        statements,
        script.quantum,
        script.turns,
    )?;
    let mut answers = no_answers(alloc, script.sessions.len())?;
    take_turns(&mut sessions, &listed, script.schedule, &mut answers)?;
    take_rounds(&mut sessions, &listed, &mut answers)?;
    let journals = lines(alloc, &sessions.finish())?;
    Ok(Played { journals, answers })
}

/// The sessions of a script that is within its limits.
fn start(
    alloc: Global,
    listed: &Listed,
    tables: Arc<Tables>,
    statements: Vec<Texts>,
    quantum: u32,
    turns: u64,
) -> Result<Sessions, Fail>
    requires { listed.now ≡ arc_value tables }
    ensures { IfOk result (AreRunning (listed_answers listed.now)) }
{
    if statements.len() > 16 || !are_short(&statements) {
        return Err(Fail::from("a script has so many sessions and statements"));
    }
    if quantum < 1 || quantum > 64 || turns < 1 || turns > 1_000_000_000 {
        return Err(Fail::from("a script has such a quantum and such turns"));
    }
    Ok(Sessions::new(alloc, listed, tables, statements, quantum, turns)?)
}

/// Whether no session has more than 256 statements.
fn are_short(statements: &[Texts]) -> bool
    ensures { IsTrue result → All (λ texts. length texts ≤ 256) statements.now }
{
    statements.iter().all(|texts| texts.len() <= 256)
}

/// Rounds of all sessions.
fn take_rounds(
    sessions: &mut Sessions,
    listed: &Listed,
    answers: &mut Vec<String>,
) -> Result<(), Fail>
    requires { AreRunning (listed_answers listed.now) sessions.old }
{
    for _ in 0..64 {
        take_turns(sessions, listed, &ALL, answers)?;
    }
    Ok(())
}

/// The sessions of these numbers take turns.
fn take_turns(
    sessions: &mut Sessions,
    listed: &Listed,
    numbers: &[u32],
    answers: &mut Vec<String>,
) -> Result<(), Fail>
    requires { AreRunning (listed_answers listed.now) sessions.old }
    ensures { AreRunning (listed_answers listed.now) sessions.new }
{
    for number in numbers {
        take_turn(sessions, listed, *number, answers)?;
    }
    Ok(())
}

/// The session of this number takes a turn, unless it is done or isn't there.
fn take_turn(
    sessions: &mut Sessions,
    listed: &Listed,
    number: u32,
    answers: &mut Vec<String>,
) -> Result<(), Fail>
    requires { AreRunning (listed_answers listed.now) sessions.old }
    ensures { AreRunning (listed_answers listed.now) sessions.new }
{
    if number < 1 || number as usize > sessions.len() || sessions.is_done(number) {
        return Ok(());
    }
    let turned = sessions.turn(listed, number);
    let answer = answers
        .get_mut(number as usize - 1)
        .ok_or("no such session")?;
    answer.push_str(match turned {
        Turned::More => ".",
        Turned::Waiting => "w",
        Turned::Done => "d",
    })?;
    Ok(())
}

/// No answers for each of so many sessions.
fn no_answers(alloc: Global, sessions: usize) -> Result<Vec<String>, Fail> {
    let mut answers = Vec::new(alloc);
    for _ in 0..sessions {
        answers.push(String::new(alloc))?;
    }
    Ok(answers)
}

/// The texts of the sessions' statements.
fn statements_of(alloc: Global, sessions: &[&[&str]]) -> Result<Vec<Texts>, OutOfMemory> {
    let mut statements = Vec::new(alloc);
    for texts in sessions {
        statements.push(texts_of(alloc, texts)?)?;
    }
    Ok(statements)
}

/// The statements' texts.
fn texts_of(alloc: Global, statements: &[&str]) -> Result<Texts, OutOfMemory> {
    let mut texts = Texts::new(alloc);
    for statement in statements {
        texts.push(Text::from_str(alloc, statement)?)?;
    }
    Ok(texts)
}
