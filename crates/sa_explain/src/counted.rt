//! What a run has counted, as members of a document.
ghost use Rattle.std.specs.Prelude.{◌≡◌, Some, IfOk, OnOk, string_bytes};
ghost use Rattle.std.specs.Option.{option_copied};
ghost use Rattle.serde_json.specs.View.{view, members_view};
ghost use Rattle.sa_explain.specs.Document.{with_counters, with_steps};
ghost use Rattle.sa_explain.specs.Number.{quotient, two_decimals};

use sa_count::{Counters, Report};
use serde_json::{Map, Value as Json, put};
use std::alloc::{AllocError, Global};

/// Puts what was counted of a table, if it was.
pub(crate) fn put_counters(
    alloc: Global,
    members: &mut Map<String, Json>,
    counters: Option<Counters>,
) -> Result<(), AllocError>
    ensures { OnOk result (members_view members.new.entries
        ≡ with_counters counters (members_view members.old.entries)) }
{
    match counters {
        None => Ok(()),
        Some(counters) => put_counts(alloc, members, &counters),
    }
}

/// Puts what was counted of a table.
fn put_counts(
    alloc: Global,
    members: &mut Map<String, Json>,
    counters: &Counters,
) -> Result<(), AllocError>
    ensures { OnOk result (members_view members.new.entries
        ≡ with_counters (Some counters.now) (members_view members.old.entries)) }
{
    let Counters {
        loops,
        rows,
        passed,
    } = *counters;
    let rows_each = quotient(alloc, 100 * u128::from(rows), loops)?;
    let filtered = quotient(alloc, 10_000 * u128::from(passed), rows)?;
    put(members, alloc, "r_total_rows", Json::from(rows))?;
    put(members, alloc, "r_total_passed", Json::from(passed))?;
    put(members, alloc, "r_rows", rows_each)?;
    put(members, alloc, "r_loops", Json::from(loops))?;
    put(members, alloc, "r_filtered", filtered)
}

/// Puts what was counted in all, if it was.
pub(crate) fn put_steps(
    alloc: Global,
    members: &mut Map<String, Json>,
    report: Option<&Report>,
) -> Result<(), AllocError>
    ensures { OnOk result (members_view members.new.entries
        ≡ with_steps (option_copied report.entry) (members_view members.old.entries)) }
{
    match report {
        None => Ok(()),
        Some(report) => {
            put(members, alloc, "r_steps", Json::from(report.steps))?;
            put(members, alloc, "r_sent", Json::from(report.sent))
        }
    }
}

/// The quotient of a number of hundredths, cut down to two decimals. There is none by 0.
fn quotient(alloc: Global, hundredths: u128, divisor: u64) -> Result<Json, AllocError>
    ensures { IfOk result (λ json. view json ≡ quotient hundredths divisor) }
{
    if divisor == 0 {
        return Ok(Json::Null);
    }
    let text = two_decimals(alloc, hundredths / u128::from(divisor))?;
    Ok(Json::from(text))
}

/// A number of hundredths, with two decimals.
fn two_decimals(alloc: Global, hundredths: u128) -> Result<String, AllocError>
    ensures { IfOk result (λ text. string_bytes text ≡ two_decimals hundredths) }
{
    let whole = hundredths / 100;
    let tenths = hundredths / 10 % 10;
    let last = hundredths % 10;
    format!(in alloc; "{whole}.{tenths}{last}")
}
