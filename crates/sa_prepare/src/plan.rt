ghost use Rattle.std.specs.Prelude.{◌≡◌, ◌<◌, length, slice_index_or, [], IfOk};
ghost use Rattle.sa_simplify.specs.Simple.{IsWellTyped, simple};
ghost use Rattle.sa_prepare.specs.PlanFor as spec;
ghost use Rattle.sa_prepare.specs.inner.Planned.{CanPlan, scan_of};

use sa_cond::{Cond, Conds};
use sa_plan::{Access, Level, Plan};
use sa_query::{Items, Query, TableUse, TableUses};
use sa_simplify::simplify;
use sa_table::Tables;
use sa_value::{OutOfMemory, Sequence, Truth};
use std::alloc::Global;

/// A full scan costs so much.
const SCAN: u128 = 20;

/// And each row that it reads so much more.
const ROW: u128 = 5;

/// The plan of a query over one table: all of the table is read.
#[tactic(auto, unfolding(crate::specs::PlanFor::plan_for))]
pub(crate) fn plan_for(alloc: Global, tables: &Tables, query: Query) -> Result<Plan, OutOfMemory>
    requires { CanPlan tables.now query }
    ensures { IfOk result (λ plan. plan ≡ spec.plan_for tables.now query) }
{
    let Query {
        tables: uses,
        filter,
        select,
        ..
    } = query;
    scan(alloc, tables, only_table(uses), filter, select)
}

/// The only one of these tables.
fn only_table(uses: TableUses) -> TableUse
    requires { length uses ≡ 1 }
    ensures { result ≡ slice_index_or uses 0 (record { table = 0; alias = [] }) }
{
    uses.into_vec().remove(0)
}

/// The scan of a table.
fn scan(
    alloc: Global,
    tables: &Tables,
    used: TableUse,
    filter: Cond,
    select: Items,
) -> Result<Plan, OutOfMemory>
    requires there { used.table < length tables.now }
    requires typed { IsWellTyped filter }
    ensures { IfOk result (λ plan. plan ≡ scan_of tables.now used filter select) }
{
    let conditions = conditions(alloc, filter)?;
    let rows = tables.count(used.table);
    let mut levels = Sequence::new(alloc);
    levels.push(Level {
        position: 0,
        table: used.table,
        alias: used.alias,
        access: Access::All,
        conditions,
        estimate: u64::from(rows),
    })?;
    Ok(Plan {
        levels,
        select,
        cost: SCAN + ROW * u128::from(rows),
    })
}

/// The conditions of a filter: the conjuncts of what it simplifies to, and none where that is TRUE.
fn conditions(alloc: Global, filter: Cond) -> Result<Conds, OutOfMemory>
    requires { IsWellTyped filter }
    ensures { IfOk result (λ conds. conds ≡ spec.conditions_of (simple filter)) }
{
    match simplify(alloc, filter)? {
        Cond::Known(Truth::True) => Ok(Conds::new(alloc)),
        Cond::And(members) => Ok(members),
        whole => {
            let mut only = Conds::new(alloc);
            only.push(whole)?;
            Ok(only)
        }
    }
}
