//! Checks of one row of a table.

use sa_parser_fixtures::{marked, session_line, setup_line};
use std::alloc::Global;
use std::process::Abort;
use std::test::Fail;

/// The text is read as this.
pub(crate) fn is_read<R: Abort + Alloc<A = Global>>(
    rt: &R,
    name: &str,
    text: &str,
    wanted: &str,
) -> Result<(), Fail> {
    let found = session_line(rt.alloc(), text)?;
    assert_eq!(rt; found.as_str(), wanted, "{name}: {text:?}");
    Ok(())
}

/// The text sets up this, or has this fault.
pub(crate) fn sets_up<R: Abort + Alloc<A = Global>>(
    rt: &R,
    name: &str,
    text: &str,
    wanted: &str,
) -> Result<(), Fail> {
    let found = setup_line(rt.alloc(), text)?;
    assert_eq!(rt; found.as_str(), wanted, "{name}: {text:?}");
    Ok(())
}

/// The fault of this kind stands at the mark of the text.
pub(crate) fn is_faulty_setup<R: Abort + Alloc<A = Global>>(
    rt: &R,
    name: &str,
    text: &str,
    kind: &str,
) -> Result<(), Fail> {
    let (text, place) = marked(rt.alloc(), text)?;
    let wanted = format!(in rt.alloc(); "{kind} at {place}")?;
    sets_up(rt, name, text.as_str(), wanted.as_str())
}
