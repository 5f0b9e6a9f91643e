//! What is left of a key, as a text.

use sa_interval::RangeList;
use sa_key::{Cut, KeyRange, Side};
use sa_value::{OutOfMemory, Value};
use std::alloc::Global;

/// The number of parts and the ranges.
pub(crate) fn written(alloc: Global, list: &RangeList) -> Result<String, OutOfMemory> {
    let parts = list.parts;
    let mut text = format!(in alloc; "{parts}:")?;
    if list.ranges.is_empty() {
        text.push_str(" none")?;
    }
    for (index, range) in list.ranges.as_slice().iter().enumerate() {
        text.push_str(if index == 0 { " " } else { "; " })?;
        put_range(alloc, &mut text, range)?;
    }
    Ok(text)
}

fn put_range(alloc: Global, text: &mut String, range: &KeyRange) -> Result<(), OutOfMemory> {
    text.push_str(match range.from.side {
        Side::Below => "[",
        Side::Above => "(",
    })?;
    put_values(alloc, text, &range.from)?;
    text.push_str("..")?;
    put_values(alloc, text, &range.to)?;
    text.push_str(match range.to.side {
        Side::Below => ")",
        Side::Above => "]",
    })?;
    Ok(())
}

fn put_values(alloc: Global, text: &mut String, cut: &Cut) -> Result<(), OutOfMemory> {
    for (index, value) in cut.tuple.as_slice().iter().enumerate() {
        if index > 0 {
            text.push_str(", ")?;
        }
        put_value(alloc, text, value)?;
    }
    Ok(())
}

fn put_value(alloc: Global, text: &mut String, value: &Value) -> Result<(), OutOfMemory> {
    match value {
        Value::Null => text.push_str("NULL")?,
        Value::Int(number) => text.push_str(format!(in alloc; "{number}")?.as_str())?,
        Value::Big(number) => text.push_str(format!(in alloc; "BIG {number}")?.as_str())?,
        Value::Text(characters) => {
            text.push_str("'")?;
            text.push_str(characters.as_str())?;
        }
    }
    Ok(())
}
