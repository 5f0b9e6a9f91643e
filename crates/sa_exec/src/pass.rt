ghost use Rattle.std.specs.Prelude.{◌≡◌, ◌<◌, []};
ghost use Rattle.sa_table.specs.Sound.{AreSound};
ghost use Rattle.sa_table.specs.Table.{row_count};
ghost use Rattle.sa_plan.specs.Lawful.{IsLawfulLevel};
ghost use Rattle.sa_query.specs.Choices.{is_true as is_true_truth};
ghost use Rattle.sa_meaning.specs.Items.{passes as all_pass, with_row};

use crate::chosen::ChosenRow;
use sa_cond::eval;
use sa_plan::Level;
use sa_table::Tables;
use sa_value::Truth;

/// Whether a row of the only level passes all of its conditions.
#[inline(always)]
pub(crate) fn passes(level: &Level, tables: &Tables, row: u32) -> bool
    requires sound { AreSound tables.now }
    requires lawful { IsLawfulLevel tables.now [] level.now }
    requires row { row < row_count tables.now level.now.table }
    ensures { result ≡ all_pass tables.now level.now.conditions (with_row level.now [] row) }
{
    let chosen = ChosenRow {
        tables,
        position: level.position,
        table: level.table,
        row,
    };
    for cond in level.conditions.as_slice() {
        if !is_true(eval(cond, &chosen)) {
            return false;
        }
    }
    true
}

/// Whether a truth is TRUE.
#[inline(always)]
fn is_true(truth: Truth) -> bool
    ensures { result ≡ is_true_truth truth }
{
    matches!(truth, Truth::True)
}
