//! Rows written as texts.
//!
//! `1, NULL, 'abc', BIG 5` is a row of a number, NULL, a text, and a number of 128 bits.
//! `'255*x'` is a text of 255 letters, and `32*1` stands for 32 numbers.

use crate::definition::times;
use sa_value::{OutOfMemory, Row, Text, Value};
use std::alloc::Global;

/// The row that a text writes.
pub(crate) fn row(alloc: Global, text: &str) -> Result<Row, OutOfMemory> {
    let mut values = Vec::new(alloc);
    if !text.is_empty() {
        for text in text.split(',') {
            push_values(alloc, &mut values, text.trim())?;
        }
    }
    Ok(Row::from_vec(values))
}

fn push_values(alloc: Global, values: &mut Vec<Value>, text: &str) -> Result<(), OutOfMemory> {
    if let Some(quoted) = text.strip_prefix('\'') {
        values.push(text_of(alloc, quoted.trim_end_matches('\''))?)?;
        return Ok(());
    }
    let (count, text) = times(text);
    for _ in 0..count {
        values.push(number_of(text))?;
    }
    Ok(())
}

/// The number that a text writes. NULL is what is no number.
fn number_of(text: &str) -> Value {
    match text.strip_prefix("BIG ") {
        Some(wide) => big(wide),
        None => int(text),
    }
}

fn big(text: &str) -> Value {
    match text.parse::<i128>() {
        Ok(number) => Value::Big(number),
        Err(_) => Value::Null,
    }
}

fn int(text: &str) -> Value {
    match text.parse::<i64>() {
        Ok(number) => Value::Int(number),
        Err(_) => Value::Null,
    }
}

fn text_of(alloc: Global, text: &str) -> Result<Value, OutOfMemory> {
    let (count, piece) = times(text);
    let mut text = String::new(alloc);
    for _ in 0..count {
        text.push_str(piece)?;
    }
    Ok(Value::Text(Text::from_string(text)))
}
