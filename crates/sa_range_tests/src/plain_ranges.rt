//! The ranges of a condition over two columns, told in a plain way: each piece of a line stands for
//! one number that lies in it.

use crate::plain_holds::{Choice, Chosen, holds, names};
use sa_cond::Cond;
use sa_value::OutOfMemory;
use std::alloc::Global;

/// The constants of conditions that are made from a number.
const CONSTANTS: [i64; 3] = [10, 20, 30];

/// A piece of a line; NULL is None, and a gap without an upper end goes on for ever.
#[derive(Clone, Copy)]
enum Piece {
    Point(Option<i64>),
    Gap {
        lower: Option<i64>,
        upper: Option<i64>,
    },
}

/// A place right below or above all pairs that begin with up to two values.
#[derive(Clone, Copy, PartialEq)]
struct Mark {
    is_above: bool,
    count: u32,
    first: Option<i64>,
    second: Option<i64>,
}

#[derive(Clone, Copy)]
struct Span {
    from: Mark,
    to: Mark,
}

/// The ranges of a condition over two columns of the first table, as a text.
pub(crate) fn ranges_text(
    alloc: Global,
    cond: &Cond,
    first: u32,
    second: u32,
) -> Result<String, OutOfMemory> {
    let next = line(alloc, cond, second)?;
    let mut spans = Vec::new(alloc);
    for piece in line(alloc, cond, first)? {
        let choice = Choice {
            column: first,
            value: inside(piece),
        };
        let chosen = Chosen {
            first: choice,
            second: None,
        };
        if holds(cond, chosen) {
            match piece {
                Piece::Gap { lower, upper } => put(&mut spans, gap_span(lower, upper))?,
                Piece::Point(_) => put_pairs(&mut spans, cond, choice, second, next.as_slice())?,
            }
        }
    }
    spans_text(alloc, spans.as_slice())
}

/// All pieces of a column's line.
fn line(alloc: Global, cond: &Cond, column: u32) -> Result<Vec<Piece>, OutOfMemory> {
    let mut line = Vec::new(alloc);
    line.push(Piece::Point(None))?;
    let mut lower = None;
    for constant in CONSTANTS {
        if names(cond, column, constant) {
            let upper = Some(constant);
            line.push(Piece::Gap { lower, upper })?;
            line.push(Piece::Point(upper))?;
            lower = upper;
        }
    }
    line.push(Piece::Gap { lower, upper: None })?;
    Ok(line)
}

/// A value that lies in a piece.
fn inside(piece: Piece) -> Option<i64> {
    match piece {
        Piece::Point(value) => value,
        Piece::Gap { lower, upper } => Some(match (lower, upper) {
            (Some(number), _) => number.saturating_add(5),
            (None, Some(number)) => number.saturating_sub(5),
            (None, None) => 0,
        }),
    }
}

/// Puts the pieces of the second line that are left behind a point of the first.
fn put_pairs(
    spans: &mut Vec<Span>,
    cond: &Cond,
    first: Choice,
    second: u32,
    line: &[Piece],
) -> Result<(), OutOfMemory> {
    for piece in line {
        let choice = Choice {
            column: second,
            value: inside(*piece),
        };
        let chosen = Chosen {
            first,
            second: Some(choice),
        };
        if holds(cond, chosen) {
            put(spans, pair_span(first.value, *piece))?;
        }
    }
    Ok(())
}

/// Puts a span behind others, as one with the last where they touch.
fn put(spans: &mut Vec<Span>, span: Span) -> Result<(), OutOfMemory> {
    match spans.pop() {
        None => spans.push(span)?,
        Some(last) => put_behind(spans, last, span)?,
    }
    Ok(())
}

fn put_behind(spans: &mut Vec<Span>, last: Span, span: Span) -> Result<(), OutOfMemory> {
    if last.to == span.from {
        spans.push(Span {
            from: last.from,
            to: span.to,
        })?;
    } else {
        spans.push(last)?;
        spans.push(span)?;
    }
    Ok(())
}

/// From above a value of the first column.
fn gap_span(lower: Option<i64>, upper: Option<i64>) -> Span {
    Span {
        from: above_one(lower),
        to: match upper {
            Some(_) => below_one(upper),
            None => Mark {
                is_above: true,
                count: 0,
                first: None,
                second: None,
            },
        },
    }
}

/// A piece of the second column behind a value of the first.
fn pair_span(first: Option<i64>, piece: Piece) -> Span {
    match piece {
        Piece::Point(second) => Span {
            from: below_two(first, second),
            to: above_two(first, second),
        },
        Piece::Gap { lower, upper } => Span {
            from: above_two(first, lower),
            to: match upper {
                Some(_) => below_two(first, upper),
                None => above_one(first),
            },
        },
    }
}

fn above_one(first: Option<i64>) -> Mark {
    Mark {
        is_above: true,
        count: 1,
        first,
        second: None,
    }
}

fn above_two(first: Option<i64>, second: Option<i64>) -> Mark {
    Mark {
        is_above: true,
        count: 2,
        first,
        second,
    }
}

/// Nothing lies between what comes before NULL and what comes before all.
fn below_one(first: Option<i64>) -> Mark {
    Mark {
        is_above: false,
        count: match first {
            None => 0,
            Some(_) => 1,
        },
        first,
        second: None,
    }
}

fn below_two(first: Option<i64>, second: Option<i64>) -> Mark {
    match second {
        None => below_one(first),
        Some(_) => Mark {
            is_above: false,
            count: 2,
            first,
            second,
        },
    }
}

fn spans_text(alloc: Global, spans: &[Span]) -> Result<String, OutOfMemory> {
    let mut text = String::from_str(alloc, "2:")?;
    if spans.is_empty() {
        text.push_str(" none")?;
    }
    for (index, span) in spans.iter().enumerate() {
        text.push_str(if index == 0 { " " } else { "; " })?;
        text.push_str(if span.from.is_above { "(" } else { "[" })?;
        put_mark(alloc, &mut text, span.from)?;
        text.push_str("..")?;
        put_mark(alloc, &mut text, span.to)?;
        text.push_str(if span.to.is_above { "]" } else { ")" })?;
    }
    Ok(text)
}

fn put_mark(alloc: Global, text: &mut String, mark: Mark) -> Result<(), OutOfMemory> {
    if mark.count > 0 {
        put_number(alloc, text, mark.first)?;
    }
    if mark.count > 1 {
        text.push_str(", ")?;
        put_number(alloc, text, mark.second)?;
    }
    Ok(())
}

fn put_number(alloc: Global, text: &mut String, value: Option<i64>) -> Result<(), OutOfMemory> {
    match value {
        None => text.push_str("NULL")?,
        Some(number) => text.push_str(format!(in alloc; "{number}")?.as_str())?,
    }
    Ok(())
}
