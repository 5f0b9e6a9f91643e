ghost use Rattle.std.specs.Prelude.{◌≡◌, ◌<◌, ◌↔◌, ◌++◌, OnOk, OnErr, length};
ghost use Rattle.sa_meaning.specs.Output.{rows_from};
ghost use Rattle.sa_exec.specs.Step.{most_rows};
ghost use Rattle.sa_exec.specs.inner.Place.{only_level, next_item, state_after, IsEmit, IsNoRead, IsFull};
ghost use Rattle.sa_exec.specs.inner.Ready.{IsReady};

use crate::emit::keep;
use crate::level::{LevelState, Place};
use crate::pass::passes;
use crate::step::StepFault;
use sa_plan::Plan;
use sa_table::Tables;
use sa_value::Rows;
use std::alloc::Global;

/// Makes the next item of a run: most of them read a row.
#[inline(always)]
pub(crate) fn make_item(
    alloc: Global,
    plan: &Plan,
    tables: &Tables,
    state: &mut LevelState,
    rows: &mut Rows,
) -> Result<(), StepFault>
    requires { IsReady tables.now plan.now state.old }
    ensures ok { OnOk result (state.new ≡ state_after tables.now (only_level plan.now) state.old) }
    ensures rows { OnOk result
        (rows.new ≡ rows.old ++ rows_from (next_item tables.now plan.now state.old.place)) }
    ensures same_state { OnErr result (state.new ≡ state.old) }
    ensures same_rows { OnErr result (rows.new ≡ rows.old) }
    ensures within { result ≡ Err StepFault.RowLimit → ⊥ }
    ensures too_many { (result ≡ Err StepFault.TooManyRows) ↔ IsFull state.old.place rows.old }
    ensures memory { result ≡ Err StepFault.OutOfMemory → IsEmit state.old.place }
{
    if let Place::Read { row } = state.place {
        let level = &plan.levels.as_slice()[0];
        state.read(row, passes(level, tables, row));
        Ok(())
    } else {
        make_other(alloc, plan, tables, state, rows)
    }
}

/// Makes the next item where it reads no row.
#[inline(never)]
fn make_other(
    alloc: Global,
    plan: &Plan,
    tables: &Tables,
    state: &mut LevelState,
    rows: &mut Rows,
) -> Result<(), StepFault>
    requires ready { IsReady tables.now plan.now state.old }
    requires other { IsNoRead state.old.place }
    ensures ok { OnOk result (state.new ≡ state_after tables.now (only_level plan.now) state.old) }
    ensures rows { OnOk result
        (rows.new ≡ rows.old ++ rows_from (next_item tables.now plan.now state.old.place)) }
    ensures same_state { OnErr result (state.new ≡ state.old) }
    ensures same_rows { OnErr result (rows.new ≡ rows.old) }
    ensures within { result ≡ Err StepFault.RowLimit → ⊥ }
    ensures too_many { (result ≡ Err StepFault.TooManyRows) ↔ IsFull state.old.place rows.old }
    ensures memory { result ≡ Err StepFault.OutOfMemory → IsEmit state.old.place }
{
    match state.place {
        Place::Open => {
            state.open();
            Ok(())
        }
        Place::Read { .. } => unreachable!(),
        Place::Emit { row } => {
            let level = &plan.levels.as_slice()[0];
            keep(alloc, plan.select.as_slice(), tables, level, row, rows)?;
            state.emitted(row);
            Ok(())
        }
    }
}
