//! Values written as texts: `NULL`, `-5`, `BIG 5` for a number of 128 bits, `'a` for a text.

use sa_key::{CutRef, KeyRef, Side};
use sa_value::{OutOfMemory, Row, Text, Value, ValueRef};
use std::alloc::Global;

/// The value that a text writes. NULL is what is no number.
fn value(text: &str) -> ValueRef<'_> {
    if let Some(text) = text.strip_prefix('\'') {
        return ValueRef::Text(text);
    }
    match text.strip_prefix("BIG ") {
        Some(wide) => big(wide),
        None => int(text),
    }
}

fn big(text: &str) -> ValueRef<'_> {
    match text.parse::<i128>() {
        Ok(number) => ValueRef::Big(number),
        Err(_) => ValueRef::Null,
    }
}

fn int(text: &str) -> ValueRef<'_> {
    match text.parse::<i64>() {
        Ok(number) => ValueRef::Int(number),
        Err(_) => ValueRef::Null,
    }
}

/// The row that a text writes.
pub(crate) fn row(alloc: Global, text: &str) -> Result<Row, OutOfMemory> {
    let mut values = Vec::new(alloc);
    for text in text.split(',') {
        values.push(held(alloc, value(text.trim()))?)?;
    }
    Ok(Row::from_vec(values))
}

/// A value of its own.
pub(crate) fn held(alloc: Global, value: ValueRef<'_>) -> Result<Value, OutOfMemory> {
    Ok(match value {
        ValueRef::Null => Value::Null,
        ValueRef::Int(number) => Value::Int(number),
        ValueRef::Big(number) => Value::Big(number),
        ValueRef::Text(text) => Value::Text(Text::from_str(alloc, text)?),
    })
}

/// The cut on this side of the tuple that a text writes: `1, 'a`, or nothing for the empty tuple.
pub(crate) fn cut(text: &str, side: Side) -> CutRef<'_> {
    let mut tuple = KeyRef::new();
    if !text.is_empty() {
        for part in text.split(',') {
            if tuple.len() < 4 {
                tuple.push(value(part.trim()));
            }
        }
    }
    CutRef { tuple, side }
}
