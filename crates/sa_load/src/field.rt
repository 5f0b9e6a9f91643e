ghost use Rattle.std.specs.Prelude.{◌≡◌, ◌≤◌, ◌^◌, length, nat_lt, if◌then◌else◌};
ghost use Rattle.std.specs.Str.{chars, is_utf8};
ghost use Rattle.sa_value.specs.declared.value.Value.TheVariants as values;
ghost use Rattle.sa_load.specs.declared.fault.LoadCause.TheVariants as causes;
ghost use Rattle.sa_load.specs.Field.{field_causes, field_value, is_null, number_of};
ghost use Rattle.sa_load.specs.inner.FieldParts.{number_causes, text_causes};
ghost use Rattle.sa_load.specs.inner.Refusal.{Gives};

use crate::fault::LoadCause;
use crate::number::{magnitude, split_minus, within};
use crate::refusal::Refusal;
use sa_table::{ColumnDef, ColumnKind};
use sa_value::{Text, Value};
use std::alloc::Global;
use std::str::from_utf8;

/// A text has at most so many bytes.
const MOST_BYTES: usize = 255;

/// What a field stands for in a column, or the first cause why it can't stand there.
pub(crate) fn read_field(
    alloc: Global,
    column: u32,
    def: &ColumnDef,
    field: &[u8],
) -> Result<Value, Refusal>
    ensures { let causes = field_causes column def.now field.now in
        Gives causes (field_value def.now.kind field.now) result }
{
    if is_null(field) {
        if def.not_null {
            return Err(Refusal::Cause(LoadCause::NullNotAllowed { column }));
        }
        return Ok(Value::Null);
    }
    match def.kind {
        ColumnKind::Int => read_number(column, 1 << 31, field),
        ColumnKind::BigInt => read_number(column, 1 << 63, field),
        ColumnKind::VarChar(characters) => read_text(alloc, column, characters, field),
    }
}

/// Whether a field is `\N`.
fn is_null(field: &[u8]) -> bool
    ensures { result ≡ is_null field.now }
{
    matches!(field, [b'\\', b'N'])
}

/// The number that a field is, in a column that holds numbers from minus its limit on and below it.
fn read_number(column: u32, limit: u64, field: &[u8]) -> Result<Value, Refusal>
    requires { limit ≤ 2 ^ 63 }
    ensures { Gives (number_causes column limit field.now) (values.Int (number_of field.now)) result }
{
    let (minus, digits) = split_minus(field);
    let Some(magnitude) = magnitude(digits) else {
        return Err(Refusal::Cause(unreadable(field)));
    };
    match within(limit, minus, magnitude) {
        Some(number) => Ok(Value::Int(number)),
        None => Err(Refusal::Cause(LoadCause::OutOfRange { column })),
    }
}

/// Why a field is no number.
fn unreadable(field: &[u8]) -> LoadCause
    ensures { result ≡ (if is_utf8 field.now then causes.NotNumber else causes.NotUtf8) }
{
    match from_utf8(field) {
        Ok(_) => LoadCause::NotNumber,
        Err(_) => LoadCause::NotUtf8,
    }
}

/// The text that a field is, in a column that holds texts of at most so many characters.
fn read_text(alloc: Global, column: u32, characters: u32, field: &[u8]) -> Result<Value, Refusal>
    ensures { Gives (text_causes column characters field.now) (values.Text field.now) result }
{
    let Ok(text) = from_utf8(field) else {
        return Err(Refusal::Cause(LoadCause::NotUtf8));
    };
    if text.len() > MOST_BYTES || has_more(text, characters) {
        return Err(Refusal::Cause(LoadCause::TooLong { column }));
    }
    Ok(Value::Text(Text::from_str(alloc, text)?))
}

/// Whether a text has more characters than so many. A text has no more of them than it has bytes.
fn has_more(text: &str, characters: u32) -> bool
    ensures { result ≡ nat_lt characters (length (chars text.now)) }
{
    text.len() > characters as usize && text.chars().count() > characters as usize
}
