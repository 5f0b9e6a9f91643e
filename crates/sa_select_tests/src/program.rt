//! What the program prints for a script.

ghost use Rattle.sa_script.specs.Limits.{IsWithinLimits};

use sa_plan::Names;
use sa_prepare::Ready;
use sa_script::{Script, read_script};
use sa_step::step_sessions;
use sa_transcript::render;
use sa_value::OutOfMemory;
use std::alloc::Global;
use std::string::String;
use std::sync::Arc;
use std::test::Fail;

/// What is printed for a text that is a script.
pub(crate) fn printed(alloc: Global, text: &str) -> Result<String, Fail> {
    let Ok(script) = read_script(alloc, text.as_bytes()) else {
        return Err(Fail::new("the text is no script"));
    };
    match String::from_utf8(journals_text(alloc, script)?) {
        Ok(printed) => Ok(printed),
        Err(_) => Err(Fail::new("the output is no UTF-8")),
    }
}

/// Runs the sessions of a script, and tells their journals.
fn journals_text(alloc: Global, script: Script) -> Result<Vec<u8>, OutOfMemory>
    requires { IsWithinLimits script }
{
    let Script {
        tables,
        sessions,
        quantum,
        turns,
        schedule,
    } = script;
    let names = Names::of(alloc, &tables)?;
    let tables = Arc::new(alloc, tables)?;
    let ready = Ready::new(tables.clone()?);
    let statements = sessions.into_vec();
    let journals = step_sessions(
        alloc,
        &ready,
        tables,
        statements,
        quantum,
        turns,
        schedule.as_slice(),
    )?;
    render(alloc, &journals, &names)
}
