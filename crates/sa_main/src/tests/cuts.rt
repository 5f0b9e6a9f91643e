//! Beginnings of a script.

use super::texts::{SERVED, TABLE};
use super::*;

#[test]
fn answers_each_beginning_of_a_script(rt: HostRuntime) -> Result<(), Fail> {
    let script = format!(in rt.alloc(); "{TABLE} {SERVED}")?;
    for end in 0..script.len() {
        let beginning = Vec::from_slice(rt.alloc(), &script.as_bytes()[..end])?;
        let (status, sink) = step_plain(rt.alloc(), beginning)?;
        let text = text_of(&sink)?;
        match status {
            0 => assert!(rt; text.ends_with("{\"done\":true}\n"), "cut at {end}: {text}"),
            3 => assert!(rt; text.starts_with("{\"fault\":"), "cut at {end}: {text}"),
            _ => assert!(rt; false, "cut at {end}: status {status}"),
        }
    }
    Ok(())
}
