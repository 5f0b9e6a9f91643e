//! Sessions on threads.

use super::lines::are_lines;
use super::texts::{DONE, SELECT, SELECT_OUTPUT, TABLE};
use super::*;
use sa_source::{MeetPause, QuietPause, SnoozePause};

/// The status and the output of `run`.
fn run_plain<R: Threads + Wait + Sync, P: Pause + Sync>(
    rt: &R,
    alloc: Global,
    input: Vec<u8>,
    pause: &P,
) -> Result<(u8, PlainSink), AllocError> {
    main_plain(rt, alloc, &["run"], input, pause)
}

#[test]
fn one_session_prints_what_step_prints(rt: HostRuntime) -> Result<(), Fail> {
    let rows = [
        ("no session", "", DONE),
        ("one SELECT", SELECT, SELECT_OUTPUT),
    ];
    for (name, sessions, output) in rows {
        let script = format!(in rt.alloc(); "{TABLE} {sessions}")?;
        let (status, sink) = run_plain(&rt, rt.alloc(), script.into_bytes(), &QuietPause)?;
        assert_eq!(rt; status, 0, "{name}");
        assert_eq!(rt; text_of(&sink)?, output, "{name}");
    }
    Ok(())
}

#[test]
fn a_fault_is_told_as_by_step(rt: HostRuntime) -> Result<(), Fail> {
    let input = Vec::from_slice(rt.alloc(), b"INSERT INTO t VALUES (1);")?;
    let (status, sink) = run_plain(&rt, rt.alloc(), input, &QuietPause)?;
    assert_eq!(rt; status, 3);
    assert_eq!(rt;
        text_of(&sink)?,
        "{\"fault\":\"UnknownTable\",\"place\":12}\n"
    );
    Ok(())
}

// On one thread two callers are never inside a pause at once.
#[test]
fn two_sessions_wait_at_once(rt: HostRuntime) -> Result<(), Fail> {
    let sessions = "TURNS 2; SESSION 1; WAIT FOR 2 AT 1; SESSION 2; WAIT FOR 1 AT 1;";
    let script = format!(in rt.alloc(); "{TABLE} {sessions}")?;
    let pause = MeetPause::new(10_000_000);
    let (status, _) = run_plain(&rt, rt.alloc(), script.into_bytes(), &pause)?;
    assert_eq!(rt; status, 0);
    assert!(rt; pause.met(), "no two sessions paused at once");
    Ok(())
}

/// How many rows the long SELECT reads.
const ROWS: u32 = 1_000_000;

/// A SELECT that reads so many rows, with a thousand comparisons of which none holds, so that it runs
/// for seconds; and a session that waits for it, asks it and kills it.
fn long_script(alloc: Global) -> Result<String, AllocError> {
    let mut rows = String::new(alloc);
    for number in 0..ROWS {
        rows.push_str(&format!(in alloc; "{number}\n")?)?;
    }
    let mut script = format!(in alloc;
        "CREATE TABLE t (a INT); QUANTUM 1; LOAD DATA t BYTES {};\n{rows}SESSION 1; \
         SET max_row_steps = {ROWS}; SELECT a FROM t WHERE a = -1",
        rows.len()
    )?;
    for number in 2..1_001 {
        script.push_str(&format!(in alloc; " OR a = -{number}")?)?;
    }
    script.push_str("; SESSION 2; WAIT FOR 1 AT 100; SHOW ANALYZE FOR 1; KILL QUERY 1;")?;
    Ok(script)
}

const WATCHED: &str = r#"{"actor":1,"desk":1,"enabled":false,"event":"begin",..
{"actor":1,"desk":1,"event":"end","outcome":{"kind":"set"},..
{"actor":1,"desk":1,"enabled":true,"event":"begin",..
{"actor":2,"desk":1,"event":"waited",..
{"actor":2,"at":..,"desk":1,"event":"queued","kind":"analyze",..
{"actor":1,"asker":2,"desk":1,"event":"served",..
{"actor":2,"desk":1,"event":"taken",..
{"actor":2,"desk":1,"event":"kill_sent","kind":"query",..
{"actor":1,"desk":1,"event":"end",.."why":"Interrupted"},..
{"actor":1,"desk":1,"event":"close",..
{"actor":2,"desk":2,"enabled":false,"event":"begin",..
{"actor":2,"desk":2,"event":"end","outcome":{"kind":"waited",..
{"actor":2,"desk":2,"enabled":false,"event":"begin",..
{"actor":2,"desk":2,"event":"end",.."kind":"shown"},..
{"actor":2,"desk":2,"enabled":false,"event":"begin",..
{"actor":2,"desk":2,"event":"end","outcome":{"kind":"kill_sent"},..
{"actor":2,"desk":2,"event":"close",..
{"done":true}
"#;

/// The row steps that the first line with this word tells.
fn steps_in(text: &str, word: &str) -> u64 {
    for line in text.lines() {
        if let Some((_, behind)) = line.split_once(word) {
            if let Some((_, number)) = behind.split_once("\"steps\":") {
                let digits = number.split(|c: char| !c.is_ascii_digit()).next();
                return digits.unwrap_or("").parse().unwrap_or(0);
            }
        }
    }
    0
}

// Were one session run after the other, the SELECT would end by its limit, or the WAIT would be spent.
#[test]
fn a_running_select_is_watched_and_killed(rt: HostRuntime) -> Result<(), Fail> {
    let script = long_script(rt.alloc())?;
    let pause = SnoozePause::new();
    let (status, sink) = run_plain(&rt, rt.alloc(), script.into_bytes(), &pause)?;
    assert_eq!(rt; status, 0);
    let text = text_of(&sink)?;
    are_lines(&rt, "watched and killed", text, WATCHED)?;
    let shown = steps_in(text, "\"event\":\"served\"");
    let ended = steps_in(text, "\"why\":\"Interrupted\"");
    assert!(rt; shown >= 100, "shown at {shown}");
    assert!(rt; ended >= shown && ended < ROWS as u64, "ended at {ended}");
    Ok(())
}
