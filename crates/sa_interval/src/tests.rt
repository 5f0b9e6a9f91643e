//! A range is written with brackets, a square one for each end that lies in it: `[1..5)` goes from
//! below (1) to below (5), and `(1, 2..1]` from above (1, 2) to above (1). All tuples are `[..]`.

ghost use Rattle.std.specs.Prelude.{◌≢◌, ◌+◌, ◌<◌, IfOk, IsTrue, length, take};
ghost use Rattle.std.specs.declared.cmp.Ordering.TheVariants.{Greater};
ghost use Rattle.sa_key.specs.Range.{canonical_cut, order_of_cuts};
ghost use Rattle.sa_interval.specs.Canonical.{AreCanonical, ArePieces};

use super::*;
use sa_key::{Cut, KeyRange, KeyRanges, KeyTuple, Side, order_cuts, order_of_cuts_is_total};
use sa_value::{OutOfMemory, Text, Value};
use std::alloc::Global;
use std::process::Abort;
use std::test::Fail;

/// The cell of a line with this number, without the blanks around it.
fn cell(line: &str, number: usize) -> &str {
    line.split('|').nth(number).unwrap_or("").trim()
}

/// The ranges that a text writes with a semicolon between two. They stand in any form.
fn ranges(alloc: Global, text: &str) -> Result<KeyRanges, OutOfMemory> {
    let mut ranges = KeyRanges::new(alloc);
    if text != "none" {
        for range_text in text.split(';') {
            ranges.push(range(alloc, range_text.trim())?)?;
        }
    }
    Ok(ranges)
}

fn range(alloc: Global, text: &str) -> Result<KeyRange, OutOfMemory> {
    let (from, to) = text.split_once("..").unwrap_or((text, ""));
    Ok(KeyRange {
        from: start(alloc, from)?,
        to: end(alloc, to)?,
    })
}

fn start(alloc: Global, text: &str) -> Result<Cut, OutOfMemory> {
    match text.strip_prefix('[') {
        Some(values) => cut(alloc, values, Side::Below),
        None => cut(alloc, text.strip_prefix('(').unwrap_or(text), Side::Above),
    }
}

fn end(alloc: Global, text: &str) -> Result<Cut, OutOfMemory> {
    match text.strip_suffix(']') {
        Some(values) => cut(alloc, values, Side::Above),
        None => cut(alloc, text.strip_suffix(')').unwrap_or(text), Side::Below),
    }
}

fn cut(alloc: Global, values: &str, side: Side) -> Result<Cut, OutOfMemory> {
    let mut tuple = KeyTuple::new(alloc);
    if !values.is_empty() {
        for text in values.split(',') {
            let part = value(alloc, text.trim())?;
            if tuple.len() < 4 {
                tuple.push(part)?;
            }
        }
    }
    Ok(Cut { tuple, side })
}

/// The value that a text writes: `'a` is a text.
fn value(alloc: Global, text: &str) -> Result<Value, OutOfMemory> {
    if let Some(characters) = text.strip_prefix('\'') {
        return Ok(Value::Text(Text::from_str(alloc, characters)?));
    }
    Ok(match text.parse::<i64>() {
        Ok(number) => Value::Int(number),
        Err(_) => Value::Null,
    })
}

/// The text that writes these ranges.
fn written(alloc: Global, ranges: &KeyRanges) -> Result<String, OutOfMemory> {
    let mut text = String::new(alloc);
    for range in ranges.as_slice() {
        if !text.is_empty() {
            text.push_str("; ")?;
        }
        text.push_str(match range.from.side {
            Side::Below => "[",
            Side::Above => "(",
        })?;
        put_values(alloc, &mut text, &range.from)?;
        text.push_str("..")?;
        put_values(alloc, &mut text, &range.to)?;
        text.push_str(match range.to.side {
            Side::Below => ")",
            Side::Above => "]",
        })?;
    }
    if text.is_empty() {
        text.push_str("none")?;
    }
    Ok(text)
}

fn put_values(alloc: Global, text: &mut String, cut: &Cut) -> Result<(), OutOfMemory> {
    for (index, value) in cut.tuple.as_slice().iter().enumerate() {
        if index > 0 {
            text.push_str(", ")?;
        }
        match value {
            Value::Null => text.push_str("NULL")?,
            Value::Int(number) => text.push_str(format!(in alloc; "{number}")?.as_str())?,
            Value::Big(number) => text.push_str(format!(in alloc; "BIG {number}")?.as_str())?,
            Value::Text(characters) => {
                text.push_str("'")?;
                text.push_str(characters.as_str())?;
            }
        }
    }
    Ok(())
}

/// The canonical list of the pieces that a text writes.
fn list(rt: &impl Abort, alloc: Global, text: &str) -> Result<KeyRanges, OutOfMemory>
    ensures { IfOk result (λ ranges. AreCanonical ranges) }
{
    let pieces = ranges(alloc, text)?;
    let rise = are_pieces(alloc, &pieces)?;
    assert!(rt; rise, "{text}: these don't rise");
    canonical(alloc, pieces)
}

/// Whether pieces rise and are disjoint.
fn are_pieces(alloc: Global, pieces: &KeyRanges) -> Result<bool, OutOfMemory>
    ensures { IfOk result (λ rise. IsTrue rise → ArePieces pieces.now) }
{
    let each = pieces.as_slice();
    for index in 0..each.len() {
        if !may_follow(alloc, each, index)? {
            return Ok(false);
        }
    }
    Ok(true)
}

/// Whether a piece may stand behind those before it.
fn may_follow(alloc: Global, pieces: &[KeyRange], index: usize) -> Result<bool, OutOfMemory>
    requires { index < length pieces.now }
    ensures { IfOk result (λ may.
        IsTrue may → ArePieces (take index pieces.now) → ArePieces (take (index + 1) pieces.now)) }
{
    order_of_cuts_is_total();
    let piece = &pieces[index];
    if !isnt_behind(alloc, &piece.from, &piece.to)? {
        return Ok(false);
    }
    if index == 0 {
        return Ok(true);
    }
    let last = &pieces[index - 1];
    isnt_behind(alloc, &last.to, &piece.from)
}

/// Whether a cut in canonical form doesn't come behind another.
fn isnt_behind(alloc: Global, cut: &Cut, other: &Cut) -> Result<bool, OutOfMemory>
    ensures { IfOk result (λ isnt. IsTrue isnt →
        order_of_cuts (canonical_cut cut.now) (canonical_cut other.now) ≢ Greater) }
{
    let cut = cut.copy(alloc)?.canonical();
    let other = other.copy(alloc)?.canonical();
    Ok(order_cuts(&cut.view(), &other.view()).is_le())
}

/// Pieces: name, the pieces, their canonical list.
const PIECES: &str = "\
no piece | none | none
all tuples | [..] | [..]
one | [1..2] | [1..2]
two apart | [1..1]; [3..3] | [1..1]; [3..3]
numbers that are neighbours | [1..1]; [2..2] | [1..1]; [2..2]
two gaps without the point between | (1..2); (2..3) | (1..2); (2..3)
two that touch | [1..2]; (2..5) | [1..5)
three that touch | [1..1]; (1..2); [2..2] | [1..2]
two touch, the third doesn't | [1..1]; (1..3); (3..] | [1..3); (3..]
an empty one | [1..1) | none
an empty one above | (1..1] | none
empty ones alone | [..); [1..1); (4..4]; (..] | none
an empty one where two touch | [1..1]; (1..1]; (1..2) | [1..2)
an empty one between two | [1..1]; (2..2]; [3..3] | [1..1]; [3..3]
an empty one behind | [1..1]; [2, 3..2, 3) | [1..1]
an empty one in front | [..); [1..1] | [1..1]";

/// Pieces with a NULL, two or more parts or texts.
const FORMS: &str = "\
a NULL below is dropped | [1, NULL..1, NULL] | [1..1, NULL]
two NULLs below are dropped | [1, NULL, NULL..1, NULL, 3] | [1..1, NULL, 3]
an end below NULL | [1..2, NULL) | [1..2)
the fourth part | [1, 2, 3, NULL..1, 2, 3, 4) | [1, 2, 3..1, 2, 3, 4)
the point NULL | [NULL..NULL] | [..NULL]
a NULL in front stays | [NULL, 2..NULL, 2] | [NULL, 2..NULL, 2]
a NULL above stays | (1, NULL..1] | (1, NULL..1]
nothing before NULL | [..NULL) | none
empty in two forms | [1..1, NULL) | none
the one that touches ends in NULL | [1..2, NULL); [2..2] | [1..2]
the one that is touched begins so | [1..2); [2, NULL..2, NULL] | [1..2, NULL]
NULL and the first gap | [NULL..NULL]; (NULL..5) | [..5)
NULL and a point | [NULL..NULL]; [5..5] | [..NULL]; [5..5]
a whole line | [NULL..NULL]; (NULL..5); [5..5]; (5..] | [..]
the second part's line | [1, NULL..1, NULL]; (1, NULL..1, 5); [1, 5..1, 5]; (1, 5..1] | [1..1]
two points of the second part | [1, 2..1, 2]; [1, 3..1, 3] | [1, 2..1, 2]; [1, 3..1, 3]
the second part's last gap | (1, 2..1]; (1..2) | (1, 2..2)
and the next point | (1, 2..1]; [2..2] | (1, 2..1]; [2..2]
the third part's pieces | [1, 2..1, 2, 3); [1, 2, 3..1, 2, 3]; (1, 2, 3..1, 2] | [1, 2..1, 2]
three parts, two and one | (1, 2, 3..1, 2]; (1, 2..1]; (1..] | (1, 2, 3..]
texts | ['a..'a]; ('a..'b) | ['a..'b)
texts behind a number | [1, 'a..1, 'a]; (1, 'b..1] | [1, 'a..1, 'a]; (1, 'b..1]
from numbers to texts | (9..'); ['..'] | (9..']
a text that begins with another | ['a..'a]; ('a..'ab); ['ab..'ab] | ['a..'ab]";

#[test]
fn makes_canonical_lists(rt: HostRuntime) -> Result<(), Fail> {
    for line in PIECES.split('\n').chain(FORMS.split('\n')) {
        let made = list(&rt, rt.alloc(), cell(line, 1))?;
        assert_eq!(rt;
            written(rt.alloc(), &made)?.as_str(),
            cell(line, 2),
            "{line}"
        );
    }
    Ok(())
}

/// Two lists over one part: name, one, the other, what they have in common, and both together.
const ONE_PART: &str = "\
both are empty | none | none | none | none
one is empty | none | [1..2] | none | [1..2]
empty and whole | none | [..] | none | [..]
both are whole | [..] | [..] | [..] | [..]
one is whole | [..] | [1..1]; (3..5) | [1..1]; (3..5) | [..]
equal lists | [1..1]; (3..5) | [1..1]; (3..5) | [1..1]; (3..5) | [1..1]; (3..5)
apart | [1..1] | [3..3] | none | [1..1]; [3..3]
they overlap | [1..5) | (2..7] | (2..5) | [1..7]
one in the other | [1..9] | [3..4] | [3..4] | [1..9]
a shared start | [1..5] | [1..2] | [1..2] | [1..5]
a shared start above | (1..5] | (1..2) | (1..2) | (1..5]
a shared end | [1..5] | (3..5] | (3..5] | [1..5]
a shared end below | [1..5) | (3..5) | (3..5) | [1..5)
the end of one is the start of the other | [1..3) | [3..3] | none | [1..3]
they share a point | [1..3] | [3..5] | [3..3] | [1..5]
a point lies between | [1..3) | (3..5] | none | [1..3); (3..5]
a point in the gap of two | [1..3); (3..5] | [3..3] | none | [1..5]
both ends are shared | [1..1]; [5..5] | [1..5] | [1..1]; [5..5] | [1..5]
NULL and the rest | [..NULL] | (NULL..] | none | [..]
NULL and whole | [..NULL] | [..] | [..NULL] | [..]
NULL and a point | [..NULL] | [3..3] | none | [..NULL]; [3..3]
NULL and what is below | [..NULL] | [..5) | [..NULL] | [..5)
with NULL and without | [..5) | (NULL..7] | (NULL..5) | [..7]
with two ends open | [..5) | (7..] | none | [..5); (7..]
one over several | [1..9] | [..1]; [4..5]; (8..] | [1..1]; [4..5]; (8..9] | [..]
several | [1..3]; [5..7] | [2..5]; [6..6]; [7..8) | [2..3]; [5..5]; [6..6]; [7..7] | [1..8)
one by one | [1..1]; [3..3] | [2..2]; [4..4] | none | [1..1]; [2..2]; [3..3]; [4..4]
texts | ['a..'c] | ('b..'d] | ('b..'c] | ['a..'d]
a number and a text | [5..5] | ['a..'a] | none | [5..5]; ['a..'a]
a text that begins with another | ('a..'ab) | ['a..'a] | none | ['a..'ab)";

/// The same over two and three parts.
const MORE_PARTS: &str = "\
a longer point | [1..1] | [1, 2..1, 2] | [1, 2..1, 2] | [1..1]
another first part | [1, 2..1, 2] | [3, 2..3, 2] | none | [1, 2..1, 2]; [3, 2..3, 2]
two halves | [1..1, 5) | [1, 5..1] | none | [1..1]
two halves without the point | [1..1, 5) | (1, 5..1] | none | [1..1, 5); (1, 5..1]
the second part's last gap | (1, 5..1] | (1..2) | none | (1, 5..2)
over two first parts | (1, 5..3) | [1..2, 7) | (1, 5..2, 7) | [1..3)
a shared first part's start | [1..1, 5] | [1..1, 7) | [1..1, 5] | [1..1, 7)
a shared first part's end | (1, 5..1] | [1, 7..1] | [1, 7..1] | (1, 5..1]
NULL in the second part | [1..1, NULL] | (1, NULL..1] | none | [1..1]
NULL in the first part | [NULL, 2..NULL, 2] | [..NULL] | [NULL, 2..NULL, 2] | [..NULL]
NULL in both | [..NULL, NULL] | [..NULL] | [..NULL, NULL] | [..NULL]
a text in the second part | [1, 'a..1, 'c] | (1, 'b..2) | (1, 'b..1, 'c] | [1, 'a..2)
a point of three parts | [1, 2..1, 2] | [1, 2, 3..1, 2, 3] | [1, 2, 3..1, 2, 3] | [1, 2..1, 2]
another third part | [1, 2, 3..1, 2, 3] | (1, 2, 3..1, 2] | none | [1, 2, 3..1, 2]
three parts, two and one | (1, 2, 3..1, 2]; (1..2) | (1, 2..1] | none | (1, 2, 3..2)
NULL in the third part | (1, 2, NULL..1, 2] | [1..1, 2, 5) | (1, 2, NULL..1, 2, 5) | [1..1, 2]
to another second part | (1, 2, 0..1, 2]; [1, 3..1, 3] | [1, 2, 5..1, 3, 5) \
| [1, 2, 5..1, 2]; [1, 3..1, 3, 5) | (1, 2, 0..1, 3]
whole and four parts | [..] | [1, 2, 3, 4..1, 2, 3, 4] | [1, 2, 3, 4..1, 2, 3, 4] | [..]";

#[test]
fn meets_and_unites(rt: HostRuntime) -> Result<(), Fail> {
    for line in ONE_PART.split('\n').chain(MORE_PARTS.split('\n')) {
        let one = list(&rt, rt.alloc(), cell(line, 1))?;
        let other = list(&rt, rt.alloc(), cell(line, 2))?;
        meets_and_unites_as(&rt, rt.alloc(), line, &one, &other)?;
        meets_and_unites_as(&rt, rt.alloc(), line, &other, &one)?;
    }
    Ok(())
}

/// Compares what two lists have in common, and both together, with a line.
fn meets_and_unites_as(
    rt: &impl Abort,
    alloc: Global,
    line: &str,
    a: &KeyRanges,
    b: &KeyRanges,
) -> Result<(), OutOfMemory>
    requires one { AreCanonical a.now }
    requires other { AreCanonical b.now }
{
    let met = written(alloc, &meet(alloc, a, b)?)?;
    assert_eq!(rt; met.as_str(), cell(line, 3), "{line}");
    let united = written(alloc, &unite(alloc, a, b)?)?;
    assert_eq!(rt; united.as_str(), cell(line, 4), "{line}");
    Ok(())
}
