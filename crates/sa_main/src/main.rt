//! The program: it reads a script, runs its sessions, and prints their journals.
//!
//! `analyze_main` is the call that the program makes. Its contract says why what is printed is right.
#![tactic(auto)]

mod analysis;
mod answering;
mod command;
mod scripts;
mod transfer;

use analysis::analyze_main;
use sa_source::{SnoozePause, StdSink, StdSource};
use std::process::ExitCode;
use std::rt::Env;
use std::{env, io};

/// Memory ran out before a command was read.
const OUT_OF_MEMORY: u8 = 6;

fn main(rt: HostRuntime) -> ExitCode {
    let Ok(words) = words(&rt) else {
        return ExitCode::from(OUT_OF_MEMORY);
    };
    let mut source = StdSource::new(rt.stdin());
    let mut sink = StdSink::new(rt.stdout());
    let pause = SnoozePause::new();
    ExitCode::from(analyze_main(&rt, rt.alloc(), &words, &mut source, &mut sink, &pause))
}

/// The words of the command line, the program's name left out.
fn words<R: Env + AllocGlobal>(rt: &R) -> io::Result<Vec<String>> {
    let mut words = Vec::new(rt.alloc());
    for word in env::args(rt)?.skip(1) {
        words.push(word)?;
    }
    Ok(words)
}

#[cfg(test)]
mod tests;
