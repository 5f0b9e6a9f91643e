//! What scripts are read as, in lines that a table can hold.

use crate::tables::{definitions, rows};
use sa_script::{Script, ScriptFault, SessionScript, read_script};
use std::alloc::Global;
use std::process::Abort;
use std::test::Fail;

/// A fault in a line: its kind, its place, and the number of its row.
pub(crate) fn fault_line(alloc: Global, fault: ScriptFault) -> Result<String, Fail> {
    match fault {
        ScriptFault::Bad {
            kind,
            place,
            line: None,
        } => Ok(format!(in alloc; "{kind:?} at {place}")?),
        ScriptFault::Bad {
            kind,
            place,
            line: Some(row),
        } => Ok(format!(in alloc; "{kind:?} at {place} in row {row}")?),
        ScriptFault::OutOfMemory => Err(Fail::new("memory ran out")),
    }
}

/// The definitions of a script's tables, or its fault.
fn definitions_line(alloc: Global, text: &str) -> Result<String, Fail> {
    match read_script(alloc, text.as_bytes()) {
        Ok(script) => definitions(alloc, &script.tables),
        Err(fault) => fault_line(alloc, fault),
    }
}

/// The rows of a script's tables, or its fault.
fn rows_line(alloc: Global, text: &str) -> Result<String, Fail> {
    match read_script(alloc, text.as_bytes()) {
        Ok(script) => rows(alloc, &script.tables),
        Err(fault) => fault_line(alloc, fault),
    }
}

/// How a script is run, or its fault: `quantum 64, turns 9, session 1 <SELECT 1>, schedule 1 1`.
fn run_line(alloc: Global, bytes: &[u8]) -> Result<String, Fail> {
    match read_script(alloc, bytes) {
        Ok(script) => script_line(alloc, &script),
        Err(fault) => fault_line(alloc, fault),
    }
}

fn script_line(alloc: Global, script: &Script) -> Result<String, Fail> {
    let (quantum, turns) = (script.quantum, script.turns);
    let mut line = format!(in alloc; "quantum {quantum}, turns {turns}")?;
    for (index, session) in script.sessions.as_slice().iter().enumerate() {
        push_session(alloc, &mut line, index, session)?;
    }
    if !script.schedule.is_empty() {
        line.push_str(", schedule")?;
    }
    for number in script.schedule.as_slice() {
        line.push_str(format!(in alloc; " {number}")?.as_str())?;
    }
    Ok(line)
}

fn push_session(
    alloc: Global,
    line: &mut String,
    index: usize,
    session: &SessionScript,
) -> Result<(), Fail> {
    line.push_str(format!(in alloc; ", session {}", index.wrapping_add(1))?.as_str())?;
    for statement in session.as_slice() {
        line.push_str(" <")?;
        line.push_str(statement.as_str())?;
        line.push_str(">")?;
    }
    Ok(())
}

/// The script is run so, or it has this fault.
pub(crate) fn runs<R: Abort + Alloc<A = Global>>(
    rt: &R,
    name: &str,
    text: &str,
    wanted: &str,
) -> Result<(), Fail> {
    let found = run_line(rt.alloc(), text.as_bytes())?;
    assert_eq!(rt; found.as_str(), wanted, "{name}: {text:?}");
    Ok(())
}

/// These bytes have this fault.
pub(crate) fn bytes_fail<R: Abort + Alloc<A = Global>>(
    rt: &R,
    name: &str,
    bytes: &[u8],
    wanted: &str,
) -> Result<(), Fail> {
    let found = run_line(rt.alloc(), bytes)?;
    assert_eq!(rt; found.as_str(), wanted, "{name}: {bytes:?}");
    Ok(())
}

/// The script's tables have these definitions, or it has this fault.
pub(crate) fn is_defined<R: Abort + Alloc<A = Global>>(
    rt: &R,
    name: &str,
    text: &str,
    wanted: &str,
) -> Result<(), Fail> {
    let found = definitions_line(rt.alloc(), text)?;
    assert_eq!(rt; found.as_str(), wanted, "{name}: {text:?}");
    Ok(())
}

/// The script's tables have these rows, or it has this fault.
pub(crate) fn has_rows<R: Abort + Alloc<A = Global>>(
    rt: &R,
    name: &str,
    text: &str,
    wanted: &str,
) -> Result<(), Fail> {
    let found = rows_line(rt.alloc(), text)?;
    assert_eq!(rt; found.as_str(), wanted, "{name}: {text:?}");
    Ok(())
}

/// The script has a fault of this kind at its mark, and no row is at fault.
pub(crate) fn is_faulty<R: Abort + Alloc<A = Global>>(
    rt: &R,
    name: &str,
    text: &str,
    kind: &str,
) -> Result<(), Fail> {
    let (text, place) = marked(rt.alloc(), text)?;
    let wanted = format!(in rt.alloc(); "{kind} at {place}")?;
    is_defined(rt, name, text.as_str(), wanted.as_str())
}

/// The row with this number has a fault of this kind at the script's mark.
pub(crate) fn is_faulty_row<R: Abort + Alloc<A = Global>>(
    rt: &R,
    name: &str,
    text: &str,
    kind: &str,
    row: u64,
) -> Result<(), Fail> {
    let (text, place) = marked(rt.alloc(), text)?;
    let wanted = format!(in rt.alloc(); "{kind} at {place} in row {row}")?;
    has_rows(rt, name, text.as_str(), wanted.as_str())
}

/// The text without its mark `^`, and where that stands.
pub(crate) fn marked(alloc: Global, text: &str) -> Result<(String, usize), Fail> {
    let Some((before, behind)) = text.split_once('^') else {
        return Err(Fail::new("no mark"));
    };
    Ok((format!(in alloc; "{before}{behind}")?, before.len()))
}

/// A text that is `again` so many times, between `first` and `last`.
pub(crate) fn repeated(
    alloc: Global,
    first: &str,
    again: &str,
    times: usize,
    last: &str,
) -> Result<String, Fail> {
    let mut text = String::from_str(alloc, first)?;
    for _ in 0..times {
        text.push_str(again)?;
    }
    text.push_str(last)?;
    Ok(text)
}
