//! Rows as a test writes them.

use sa_value::{OutOfMemory, Rows, ValueRef};
use std::alloc::Global;

/// The rows as a text, such as `1,x;NULL,y;`.
pub(crate) fn text_of(alloc: Global, rows: &Rows) -> Result<String, OutOfMemory> {
    let mut text = String::new(alloc);
    for row in rows.as_slice() {
        for (number, value) in row.as_slice().iter().enumerate() {
            if number > 0 {
                text.push_str(",")?;
            }
            push_value(alloc, &mut text, value.view())?;
        }
        text.push_str(";")?;
    }
    Ok(text)
}

/// Puts a value at the end of a text.
fn push_value(alloc: Global, text: &mut String, value: ValueRef<'_>) -> Result<(), OutOfMemory> {
    match value {
        ValueRef::Null => text.push_str("NULL")?,
        ValueRef::Int(number) => text.push_str(&format!(in alloc; "{number}")?)?,
        ValueRef::Big(number) => text.push_str(&format!(in alloc; "{number}")?)?,
        ValueRef::Text(characters) => text.push_str(characters)?,
    }
    Ok(())
}
