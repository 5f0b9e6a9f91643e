//! How much a text and a name may hold.

use crate::lines::tokens_line;
use std::alloc::{AllocError, Global};
use std::process::Abort;
use std::test::Fail;

/// So many letters between a front and a quote.
fn with_letters(
    alloc: Global,
    front: &str,
    count: usize,
    quote: &str,
) -> Result<String, AllocError> {
    let mut text = String::from_str(alloc, front)?;
    for _ in 0..count {
        text.push('a')?;
    }
    text.push_str(quote)?;
    Ok(text)
}

/// The text in quotes is refused, or read, as the row says.
fn is_refused<R: Abort + Alloc<A = Global>>(
    rt: &R,
    name: &str,
    front: &str,
    letters: usize,
    quote: &str,
    fault: Option<&str>,
) -> Result<(), Fail> {
    let text = with_letters(rt.alloc(), front, letters, quote)?;
    let found = tokens_line(rt.alloc(), text.as_str())?;
    match fault {
        Some(fault) => assert_eq!(rt; found.as_str(), fault, "{name}: {front}, {letters} letters"),
        None => assert!(rt;
            !found.as_str().contains(" at "),
            "{name}: {front}, {letters} letters"
        ),
    }
    Ok(())
}

#[test]
fn counts_the_bytes_that_a_text_holds(rt: HostRuntime) -> Result<(), Fail> {
    let long = Some("TextTooLong at 0");
    let rows = [
        ("letters", "'", 255, None),
        ("one letter more", "'", 256, long),
        ("an escape of one byte", r"'\n", 254, None),
        ("an escape and one letter more", r"'\n", 255, long),
        ("an escape of two bytes", r"'\%", 253, None),
        (
            "an escape of two bytes and one letter more",
            r"'\%",
            254,
            long,
        ),
        ("a doubled quote", "'''", 254, None),
        ("a doubled quote and one letter more", "'''", 255, long),
        ("a character of two bytes", "'é", 253, None),
        (
            "a character of two bytes and one letter more",
            "'é",
            254,
            long,
        ),
    ];
    for (name, front, letters, fault) in rows {
        is_refused(&rt, name, front, letters, "'", fault)?;
    }
    Ok(())
}

#[test]
fn limits_texts_alone(rt: HostRuntime) -> Result<(), Fail> {
    is_refused(&rt, "a name", "`", 256, "`", None)?;
    is_refused(
        &rt,
        "a text without its end",
        "'",
        256,
        "",
        Some("OpenText at 0"),
    )
}
