ghost use Rattle.std.specs.Prelude.{◌≡◌, ◌<◌, ◌≤◌, ◌↔◌, [], ◌∷◌, ◌++◌, length, All, IfOk, OnOk, OnErr};
ghost use Rattle.sa_value.specs.Value.{value_at};
ghost use Rattle.sa_table.specs.Sound.{AreSound};
ghost use Rattle.sa_table.specs.Table.{row_count};
ghost use Rattle.sa_plan.specs.Lawful.{IsLawfulExpr, IsLawfulLevel};
ghost use Rattle.sa_meaning.specs.Items.{selected, with_row};
ghost use Rattle.sa_exec.specs.Step.{most_rows};

use crate::chosen::ChosenRow;
use crate::step::StepFault;
use sa_cond::value_of;
use sa_plan::{Level, Plan};
use sa_query::Item;
use sa_table::Tables;
use sa_value::{OutOfMemory, Row, Rows, Text, Value, ValueRef};
use std::alloc::Global;

/// How many rows a run keeps at most.
const MOST_ROWS: usize = 65_536;

/// Keeps what the select list gives for a row of the only level.
pub(crate) fn keep(
    alloc: Global,
    select: &[Item],
    tables: &Tables,
    level: &Level,
    row: u32,
    rows: &mut Rows,
) -> Result<(), StepFault>
    requires sound { AreSound tables.now }
    requires lawful { IsLawfulLevel tables.now [] level.now }
    requires select { All (λ item. IsLawfulExpr tables.now (level.now ∷ []) item.value) select.now }
    requires row { row < row_count tables.now level.now.table }
    ensures ok { OnOk result
        (rows.new ≡ rows.old ++ selected tables.now select.now (with_row level.now [] row) ∷ []) }
    ensures err { OnErr result (rows.new ≡ rows.old) }
    ensures too_many { (result ≡ Err StepFault.TooManyRows) ↔ (most_rows ≤ length rows.old) }
    ensures within { result ≡ Err StepFault.RowLimit → ⊥ }
{
    if rows.len() >= MOST_ROWS {
        return Err(StepFault::TooManyRows);
    }
    match put_row(alloc, select, tables, level, row, rows) {
        Ok(()) => Ok(()),
        Err(_) => Err(StepFault::OutOfMemory),
    }
}

/// Puts that row at the end of the rows.
fn put_row(
    alloc: Global,
    select: &[Item],
    tables: &Tables,
    level: &Level,
    row: u32,
    rows: &mut Rows,
) -> Result<(), OutOfMemory>
    requires sound { AreSound tables.now }
    requires lawful { IsLawfulLevel tables.now [] level.now }
    requires select { All (λ item. IsLawfulExpr tables.now (level.now ∷ []) item.value) select.now }
    requires row { row < row_count tables.now level.now.table }
    ensures ok { OnOk result
        (rows.new ≡ rows.old ++ selected tables.now select.now (with_row level.now [] row) ∷ []) }
    ensures err { OnErr result (rows.new ≡ rows.old) }
{
    let chosen = ChosenRow {
        tables,
        position: level.position,
        table: level.table,
        row,
    };
    let mut values = Vec::with_capacity(alloc, select.len())?;
    for item in select {
        values.push(owned(alloc, value_of(&item.value, &chosen))?)?;
    }
    rows.push(Row::from_vec(values))
}

/// A value of its own that equals a lent one.
fn owned(alloc: Global, value: ValueRef<'_>) -> Result<Value, OutOfMemory>
    ensures { IfOk result (λ held. held ≡ value_at value.entry) }
{
    Ok(match value {
        ValueRef::Null => Value::Null,
        ValueRef::Int(number) => Value::Int(number),
        ValueRef::Big(number) => Value::Big(number),
        ValueRef::Text(text) => Value::Text(Text::from_str(alloc, text)?),
    })
}
