//! Checks of one row of a table.

use sa_parser_fixtures::{session_line, setup_line};
use std::alloc::Global;
use std::process::Abort;
use std::test::Fail;

/// The text is read as this.
pub(crate) fn is_read<R: Abort + Alloc<A = Global>>(
    rt: &R,
    name: &str,
    text: &str,
    wanted: &str,
) -> Result<(), Fail> {
    let found = session_line(rt.alloc(), text)?;
    assert_eq!(rt; found.as_str(), wanted, "{name}: {text:?}");
    Ok(())
}

/// The text is a statement, and what it is read as is read as itself.
pub(crate) fn is_canonized<R: Abort + Alloc<A = Global>>(
    rt: &R,
    name: &str,
    text: &str,
    canonical: &str,
) -> Result<(), Fail> {
    is_read(rt, name, text, canonical)?;
    is_read(rt, name, canonical, canonical)
}

/// The text sets up this, or has this fault.
pub(crate) fn sets_up<R: Abort + Alloc<A = Global>>(
    rt: &R,
    name: &str,
    text: &str,
    wanted: &str,
) -> Result<(), Fail> {
    let found = setup_line(rt.alloc(), text)?;
    assert_eq!(rt; found.as_str(), wanted, "{name}: {text:?}");
    Ok(())
}
