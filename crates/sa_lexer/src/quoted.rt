ghost use Rattle.std.specs.Prelude.{◌≡◌, ◌++◌, ◌<◌, length, drop, slice_index, false, IfOk, IsTrue};
ghost use Rattle.std.specs.List.{prefix_len};
ghost use Rattle.std.specs.Str.{IsCharBoundary};
ghost use Rattle.sa_lexer.specs.Byte.{is_quote};
ghost use Rattle.sa_lexer.specs.Quoted.{held_in, is_other, Escapes};

use sa_value::{OutOfMemory, Text};
use std::alloc::Global;

/// What the bytes between two quotes stand for, with doubled quotes and escapes undone.
///
/// Source: MariaDB Knowledge Base, "String Literals" and "Identifier Names".
pub(crate) fn unquoted(alloc: Global, quote: u8, inner: &str) -> Result<Text, OutOfMemory>
    requires { IsTrue (is_quote quote) }
    ensures { IfOk result (λ text. text ≡ held_in quote inner.now) }
{
    let mut held = String::with_capacity(alloc, inner.len())?;
    let mut rest = inner;
    while !rest.is_empty() {
        let (meaning, len) = first_unit(quote, rest);
        held.push_str(meaning)?;
        rest = &rest[len..];
    }
    Ok(Text::from_string(held))
}

/// What the front of such bytes stands for, and how many bytes that front takes: a doubled quote, an
/// escape, or a run of other bytes.
fn first_unit(quote: u8, rest: &str) -> (&str, usize)
    requires some { 0 < length rest.now }
    requires quote { IsTrue (is_quote quote) }
    ensures held { held_in quote rest.now ≡ result.0.now ++ held_in quote (drop result.1 rest.now) }
    ensures some { 0 < result.1 }
    ensures cut { IsCharBoundary rest.now result.1 }
{
    let run = run_of_others(quote, rest.as_bytes());
    if run > 0 {
        (&rest[..run], run)
    } else {
        special_unit(quote, rest)
    }
}

/// The same where a quote or an escape comes first.
fn special_unit(quote: u8, rest: &str) -> (&str, usize)
    requires some { 0 < length rest.now }
    requires quote { IsTrue (is_quote quote) }
    requires first { is_other quote (slice_index rest.now 0) ≡ false }
    ensures held { held_in quote rest.now ≡ result.0.now ++ held_in quote (drop result.1 rest.now) }
    ensures some { 0 < result.1 }
    ensures cut { IsCharBoundary rest.now result.1 }
{
    let bytes = rest.as_bytes();
    if bytes.len() == 1 {
        (rest, 1)
    } else if bytes[0] != quote {
        escaped(rest, bytes[1])
    } else if bytes[1] == quote {
        (&rest[..1], 2)
    } else {
        (&rest[..1], 1)
    }
}

/// What a backslash and the byte after it stand for, and how many bytes they take. Before a character
/// past ASCII the backslash alone is passed, and the character is read after it.
fn escaped(rest: &str, second: u8) -> (&str, usize)
    requires long { 1 < length rest.now }
    requires backslash { slice_index rest.now 0 ≡ 92 }
    requires second { slice_index rest.now 1 ≡ second }
    ensures { Escapes second result.0.now result.1 }
{
    match second {
        b'0' => ("\0", 2),
        b'b' => ("\u{8}", 2),
        b't' => ("\t", 2),
        b'n' => ("\n", 2),
        b'r' => ("\r", 2),
        b'Z' => ("\u{1a}", 2),
        b'%' => ("\\%", 2),
        b'_' => ("\\_", 2),
        _ if second.is_ascii() => (&rest[1..2], 2),
        _ => ("", 1),
    }
}

/// How many bytes come before the next quote or escape.
fn run_of_others(quote: u8, bytes: &[u8]) -> usize
    ensures { result ≡ prefix_len (is_other quote) bytes.now }
{
    bytes
        .iter()
        .take_while(|byte| **byte != quote && (**byte != b'\\' || quote == b'`'))
        .count()
}
