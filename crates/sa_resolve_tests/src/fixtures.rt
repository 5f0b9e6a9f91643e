//! Texts.

use sa_parser::ParseFault;
use sa_value::OutOfMemory;
use std::alloc::Global;
use std::test::Fail;

pub(crate) fn fault_line(alloc: Global, fault: ParseFault) -> Result<String, Fail> {
    Ok(match fault {
        ParseFault::Syntax { place } => format!(in alloc; "Syntax at {place}")?,
        ParseFault::NotSupported { place } => format!(in alloc; "NotSupported at {place}")?,
        ParseFault::TooDeep { place } => format!(in alloc; "TooDeep at {place}")?,
        ParseFault::OutOfMemory => return Err(Fail::new("memory ran out")),
    })
}

/// The text without its mark `^`, and where that stands.
pub(crate) fn marked(alloc: Global, text: &str) -> Result<(String, usize), Fail> {
    let Some((before, behind)) = text.split_once('^') else {
        return Err(Fail::new("no mark"));
    };
    Ok((format!(in alloc; "{before}{behind}")?, before.len()))
}

/// A text that is `again` so many times, between `first` and `last`.
pub(crate) fn repeated(
    alloc: Global,
    first: &str,
    again: &str,
    times: usize,
    last: &str,
) -> Result<String, OutOfMemory> {
    let mut text = String::from_str(alloc, first)?;
    for _ in 0..times {
        text.push_str(again)?;
    }
    text.push_str(last)?;
    Ok(text)
}
