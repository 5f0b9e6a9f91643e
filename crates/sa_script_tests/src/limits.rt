//! The limits of sessions and of their statements, at their values and one past them.

use crate::lines::{is_faulty, repeated};
use std::alloc::Global;
use std::process::Abort;
use std::test::Fail;

/// So many sessions without statements, and then this.
fn sessions(alloc: Global, count: usize, last: &str) -> Result<String, Fail> {
    let mut text = String::new(alloc);
    for number in 0..count {
        let number = number.wrapping_add(1);
        text.push_str(format!(in alloc; "SESSION {number};")?.as_str())?;
    }
    text.push_str(last)?;
    Ok(text)
}

#[test]
fn keeps_the_limit_of_sessions(rt: HostRuntime) -> Result<(), Fail> {
    let alloc = rt.alloc();
    let most = sessions(alloc, 16, "SCHEDULE 16 1 ^17")?;
    is_faulty(&rt, "16 sessions", most.as_str(), "UnknownSession")?;
    let many = sessions(alloc, 16, "SESSION ^17")?;
    is_faulty(&rt, "session 17", many.as_str(), "TooManySessions")?;
    let past = sessions(alloc, 16, "SESSION ^18")?;
    is_faulty(
        &rt,
        "session 18 behind session 16",
        past.as_str(),
        "SessionOrder",
    )
}

/// Each session has its own 256 statements.
#[test]
fn keeps_the_limit_of_statements(rt: HostRuntime) -> Result<(), Fail> {
    let alloc = rt.alloc();
    let first = repeated(alloc, "SESSION 1;", "a;", 256, "SESSION 2;")?;
    let most = repeated(alloc, first.as_str(), "b;", 256, "SCHEDULE ^3")?;
    is_faulty(&rt, "256 statements each", most.as_str(), "UnknownSession")?;
    let many = repeated(alloc, first.as_str(), "b;", 256, "\n ^/**/ c")?;
    is_faulty(&rt, "257 statements", many.as_str(), "TooManyStatements")
}

#[test]
fn keeps_the_limit_of_a_statement(rt: HostRuntime) -> Result<(), Fail> {
    let alloc = rt.alloc();
    let most = repeated(alloc, "SESSION 1; a; ", "x", 65_536, " \n; SESSION ^1;")?;
    is_faulty(&rt, "65,536 bytes", most.as_str(), "SessionOrder")?;
    let many = repeated(alloc, "SESSION 1; a;\t ^", "x", 65_537, ";")?;
    is_faulty(&rt, "65,537 bytes", many.as_str(), "StatementTooLong")
}

#[test]
fn keeps_the_limit_of_a_schedule(rt: HostRuntime) -> Result<(), Fail> {
    let alloc = rt.alloc();
    let most = repeated(alloc, "SESSION 1; SCHEDULE", " 1", 65_536, "; ^x")?;
    is_faulty(&rt, "65,536 numbers", most.as_str(), "AfterSchedule")?;
    let many = repeated(alloc, "SESSION 1; SCHEDULE", " 1", 65_536, " ^1")?;
    is_faulty(&rt, "65,537 numbers", many.as_str(), "ScheduleTooLong")?;
    let unknown = repeated(alloc, "SESSION 1; SCHEDULE", " 1", 65_536, " ^2")?;
    is_faulty(
        &rt,
        "no session past the limit",
        unknown.as_str(),
        "UnknownSession",
    )
}
