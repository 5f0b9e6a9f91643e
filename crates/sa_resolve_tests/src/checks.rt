//! Checks of one row of a table.

use crate::answers::answer_line;
use crate::fixtures::marked;
use std::alloc::Global;
use std::process::Abort;
use std::test::Fail;

/// The statement stands for this query, or has this fault.
pub(crate) fn has_answer<R: Abort + Alloc<A = Global>>(
    rt: &R,
    name: &str,
    text: &str,
    wanted: &str,
) -> Result<(), Fail> {
    let found = answer_line(rt.alloc(), text)?;
    assert_eq!(rt; found.as_str(), wanted, "{name}: {text:?}");
    Ok(())
}

/// The fault of this kind stands at the mark of the statement.
pub(crate) fn is_faulty<R: Abort + Alloc<A = Global>>(
    rt: &R,
    name: &str,
    text: &str,
    kind: &str,
) -> Result<(), Fail> {
    let (text, place) = marked(rt.alloc(), text)?;
    let wanted = format!(in rt.alloc(); "{kind} at {place}")?;
    has_answer(rt, name, text.as_str(), wanted.as_str())
}

/// Nothing is wrong with the statement: it stands for a query.
pub(crate) fn is_right<R: Abort + Alloc<A = Global>>(
    rt: &R,
    name: &str,
    text: &str,
) -> Result<(), Fail> {
    let found = answer_line(rt.alloc(), text)?;
    assert!(rt; found.starts_with("from "), "{name}: {text:?}: {found}");
    Ok(())
}
