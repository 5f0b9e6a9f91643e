//! What is answered to an input.

ghost use Rattle.std.specs.Prelude.{◌≡◌, ◌≢◌, ◌⊎◌, IfOk, Err};
ghost use Rattle.sa_script.specs.Script.{IsScript, IsScriptOf};
ghost use Rattle.sa_script.specs.Limits.{IsWithinLimits};
ghost use Rattle.sa_main.specs.Answer.{TellsJournals, IsJournal, IsRefusal};
ghost use Rattle.sa_main.specs.declared.command.Command.TheVariants.{Step, Run};

use sa_plan::Names;
use sa_prepare::Ready;
use sa_run::run_sessions;
use sa_script::{Script, ScriptFault, read_script, text_has_one_answer};
use sa_source::Pause;
use sa_step::step_sessions;
use sa_transcript::{fault_line, render};
use sa_value::OutOfMemory;
use std::alloc::Global;
use std::sync::{Arc, Wait};
use std::thread::Threads;

/// The script ran, and its journals were written.
pub const DONE: u8 = 0;

/// The input is no script.
pub const NO_SCRIPT: u8 = 3;

/// The text that answers an input, and the status that goes with it.
#[derive(Drop)]
pub struct Answer {
    pub status: u8,
    pub text: Vec<u8>,
}

/// What `step` answers to an input: the journals of the script that it is, or the line of its first
/// fault.
pub fn answer_step(alloc: Global, input: &[u8]) -> Result<Answer, OutOfMemory>
    ensures either { IfOk result (λ answer. (answer.status ≡ 0) ⊎ (answer.status ≡ 3)) }
    ensures journal { IfOk result
        (λ answer. answer.status ≡ 0 → IsJournal Step input.now answer.text.items) }
    ensures refusal { IfOk result
        (λ answer. answer.status ≡ 3 → IsRefusal input.now answer.text.items) }
{
    match read_script(alloc, input) {
        Ok(script) => {
            let text = step_text(alloc, input, script)?;
            Ok(Answer { status: DONE, text })
        }
        Err(ScriptFault::OutOfMemory) => Err(OutOfMemory),
        Err(fault) => refusal(alloc, input, &fault),
    }
}

/// What `run` answers to an input.
pub fn answer_run<R: Threads + Wait + Sync, P: Pause + Sync>(
    rt: &R,
    alloc: Global,
    pause: &P,
    input: &[u8],
) -> Result<Answer, OutOfMemory>
    ensures either { IfOk result (λ answer. (answer.status ≡ 0) ⊎ (answer.status ≡ 3)) }
    ensures journal { IfOk result
        (λ answer. answer.status ≡ 0 → IsJournal Run input.now answer.text.items) }
    ensures refusal { IfOk result
        (λ answer. answer.status ≡ 3 → IsRefusal input.now answer.text.items) }
{
    match read_script(alloc, input) {
        Ok(script) => {
            let text = run_text(rt, alloc, pause, input, script)?;
            Ok(Answer { status: DONE, text })
        }
        Err(ScriptFault::OutOfMemory) => Err(OutOfMemory),
        Err(fault) => refusal(alloc, input, &fault),
    }
}

/// The journals of the script that the input is, its sessions run on one thread.
#[tactic(none)]
fn step_text(alloc: Global, input: &[u8], script: Script) -> Result<Vec<u8>, OutOfMemory>
    requires { IsScript input.now script }
    ensures { IfOk result (λ text. IsJournal Step input.now text.items) }
{
    // what the input is, is for contracts alone
    let _ = input;
    stepped_journals(alloc, script)
}

/// The journals of the script that the input is, each session run on a thread of its own.
#[tactic(none)]
fn run_text<R: Threads + Wait + Sync, P: Pause + Sync>(
    rt: &R,
    alloc: Global,
    pause: &P,
    input: &[u8],
    script: Script,
) -> Result<Vec<u8>, OutOfMemory>
    requires { IsScript input.now script }
    ensures { IfOk result (λ text. IsJournal Run input.now text.items) }
{
    let _ = input;
    run_journals(rt, alloc, pause, script)
}

/// The answer to an input that is no script.
fn refusal(alloc: Global, input: &[u8], fault: &ScriptFault) -> Result<Answer, OutOfMemory>
    requires found { IsScriptOf input.now (Err fault.now) }
    requires known { fault.now ≢ ScriptFault.OutOfMemory }
    ensures status { IfOk result (λ answer. answer.status ≡ 3) }
    ensures refusal { IfOk result (λ answer. IsRefusal input.now answer.text.items) }
{
    let text = refusal_text(alloc, input, fault)?;
    Ok(Answer {
        status: NO_SCRIPT,
        text,
    })
}

/// The line of the first fault of the input.
#[tactic(none)]
fn refusal_text(alloc: Global, input: &[u8], fault: &ScriptFault) -> Result<Vec<u8>, OutOfMemory>
    requires found { IsScriptOf input.now (Err fault.now) }
    requires known { fault.now ≢ ScriptFault.OutOfMemory }
    ensures { IfOk result (λ text. IsRefusal input.now text.items) }
{
    let _ = input;
    text_has_one_answer();
    fault_line(alloc, fault)
}

/// Runs the sessions of a script on one thread, and tells their journals.
fn stepped_journals(alloc: Global, script: Script) -> Result<Vec<u8>, OutOfMemory>
    requires { IsWithinLimits script }
    ensures { IfOk result (λ text. TellsJournals Step script text.items) }
{
    let Script {
        tables,
        sessions,
        quantum,
        turns,
        schedule,
    } = script;
    let names = Names::of(alloc, &tables)?;
    let tables = Arc::new(alloc, tables)?;
    let ready = Ready::new(tables.clone()?);
    let statements = sessions.into_vec();
    let journals = step_sessions(
        alloc,
        &ready,
        tables,
        statements,
        quantum,
        turns,
        schedule.as_slice(),
    )?;
    render(alloc, &journals, &names)
}

/// Runs each session of a script on a thread of its own, and tells their journals.
fn run_journals<R: Threads + Wait + Sync, P: Pause + Sync>(
    rt: &R,
    alloc: Global,
    pause: &P,
    script: Script,
) -> Result<Vec<u8>, OutOfMemory>
    requires { IsWithinLimits script }
    ensures { IfOk result (λ text. TellsJournals Run script text.items) }
{
    let Script {
        tables,
        sessions,
        quantum,
        turns,
        ..
    } = script;
    let names = Names::of(alloc, &tables)?;
    let tables = Arc::new(alloc, tables)?;
    let ready = Ready::new(tables.clone()?);
    let statements = sessions.into_vec();
    let journals = run_sessions(rt, alloc, &ready, pause, tables, statements, quantum, turns)?;
    render(alloc, &journals, &names)
}
