//! Both ways to run a script.

ghost use Rattle.std.specs.Prelude.{IfOk};
ghost use Rattle.sa_script.specs.Limits.{IsWithinLimits};

use sa_desk::Journals;
use sa_prepare::Ready;
use sa_run::run_sessions;
use sa_script::{Script, read_script};
use sa_source::Pause;
use sa_step::step_sessions;
use sa_value::OutOfMemory;
use std::alloc::Global;
use std::sync::{Arc, Wait};
use std::test::Fail;
use std::thread::Threads;

/// The script that a text is.
fn script_of(alloc: Global, text: &str) -> Result<Script, Fail>
    ensures { IfOk result IsWithinLimits }
{
    match read_script(alloc, text.as_bytes()) {
        Ok(script) => Ok(script),
        Err(_) => Err(Fail::new("the text is no script")),
    }
}

/// The journals of a script's sessions on one thread.
pub(crate) fn step(alloc: Global, text: &str) -> Result<Journals, Fail> {
    Ok(step_script(alloc, script_of(alloc, text)?)?)
}

/// The journals of a script's sessions, each on a thread of its own.
pub(crate) fn run<R: Threads + Wait + Sync, Q: Pause + Sync>(
    rt: &R,
    alloc: Global,
    pause: &Q,
    text: &str,
) -> Result<Journals, Fail> {
    Ok(run_script(rt, alloc, pause, script_of(alloc, text)?)?)
}

/// Runs the sessions of a script by its schedule.
fn step_script(alloc: Global, script: Script) -> Result<Journals, OutOfMemory>
    requires { IsWithinLimits script }
{
    let Script {
        tables,
        sessions,
        quantum,
        turns,
        schedule,
    } = script;
    let tables = Arc::new(alloc, tables)?;
    let ready = Ready::new(tables.clone()?);
    let statements = sessions.into_vec();
    step_sessions(
        alloc,
        &ready,
        tables,
        statements,
        quantum,
        turns,
        schedule.as_slice(),
    )
}

/// Runs each session of a script on a thread of its own.
fn run_script<R: Threads + Wait + Sync, Q: Pause + Sync>(
    rt: &R,
    alloc: Global,
    pause: &Q,
    script: Script,
) -> Result<Journals, OutOfMemory>
    requires { IsWithinLimits script }
{
    let Script {
        tables,
        sessions,
        quantum,
        turns,
        ..
    } = script;
    let tables = Arc::new(alloc, tables)?;
    let ready = Ready::new(tables.clone()?);
    let statements = sessions.into_vec();
    run_sessions(rt, alloc, &ready, pause, tables, statements, quantum, turns)
}
