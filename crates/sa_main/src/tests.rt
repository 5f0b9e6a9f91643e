ghost use Rattle.std.specs.Prelude.{◌≢◌, IfOk};

use crate::analysis::analyze_main;
use crate::scripts::step_script;
use sa_source::{Pause, PlainSink, PlainSource};
use std::alloc::{AllocError, Global};
use std::process::Abort;
use std::str::from_utf8;
use std::sync::Wait;
use std::test::Fail;
use std::thread::Threads;

mod cuts;
mod faults;
mod kills;
mod lines;
mod outputs;
mod requests;
mod statements;
mod texts;
mod threads;
mod words;

/// The words of a command line.
fn words_of(alloc: Global, line: &[&str]) -> Result<Vec<String>, AllocError> {
    let mut words = Vec::new(alloc);
    for word in line {
        words.push(String::from_str(alloc, word)?)?;
    }
    Ok(words)
}

/// The status and the output of `step` over memory, where neither side fails.
fn step_plain(alloc: Global, input: Vec<u8>) -> Result<(u8, PlainSink), AllocError>
    ensures no_source_fault { IfOk result (λ answer. answer.0 ≢ 4) }
    ensures no_sink_fault { IfOk result (λ answer. answer.0 ≢ 5) }
{
    let mut source = PlainSource::new(input);
    let mut sink = PlainSink::new(alloc);
    let status = step_script(alloc, &mut source, &mut sink);
    Ok((status, sink))
}

/// The status and the output of these words over memory, where neither side fails.
fn main_plain<R: Threads + Wait + Sync, P: Pause + Sync>(
    rt: &R,
    alloc: Global,
    line: &[&str],
    input: Vec<u8>,
    pause: &P,
) -> Result<(u8, PlainSink), AllocError> {
    let words = words_of(alloc, line)?;
    let mut source = PlainSource::new(input);
    let mut sink = PlainSink::new(alloc);
    let status = analyze_main(rt, alloc, &words, &mut source, &mut sink, pause);
    Ok((status, sink))
}

/// The text that a sink took.
fn text_of(sink: &PlainSink) -> Result<&str, Fail> {
    match from_utf8(sink.taken()) {
        Ok(text) => Ok(text),
        Err(_) => Err(Fail::new("the output is no UTF-8")),
    }
}

/// The input has this status and this whole output.
fn prints(
    rt: &impl Abort,
    alloc: Global,
    name: &str,
    input: Vec<u8>,
    status: u8,
    output: &str,
) -> Result<(), Fail> {
    let (answered, sink) = step_plain(alloc, input)?;
    assert_eq!(rt; text_of(&sink)?, output, "{name}");
    assert_eq!(rt; answered, status, "{name}");
    Ok(())
}
