//! Where a run stops before its end: at its limit of steps, and at the most rows that it keeps.

ghost use Rattle.std.specs.Prelude.{◌≤◌, ◌^◌};

use crate::driven::Driven;
use crate::rows::text_of;
use sa_exec::{Step, StepFault};
use sa_plan_fixtures::{Operand, Test, conditions_of, plan_of, tables_of};
use sa_table::ColumnKind;
use sa_value::CompareOp;
use std::alloc::Global;
use std::process::Abort;
use std::test::Fail;

/// How a run ended.
#[derive(Clone, Copy, Debug, PartialEq, Eq)]
struct End {
    /// Why it stopped, if it isn't finished.
    fault: Option<StepFault>,
    /// How many steps it made, by its report.
    steps: u64,
    /// How many rows it read and gave out.
    read: u64,
    sent: u64,
}

/// Steps a run until it stops.
fn end_of(run: &mut Driven) -> Option<End> {
    let mut fault = None;
    for _step in 0..1_000_000u32 {
        match run.step() {
            Some(Ok(Step::More)) => {}
            Some(Ok(Step::Finished)) | None => break,
            Some(Err(stop)) => fault = Some(stop),
        }
    }
    let report = run.report();
    let counters = report.tables.as_slice().first()?;
    Some(End {
        fault,
        steps: report.steps,
        read: counters.rows,
        sent: report.sent,
    })
}

/// Runs `SELECT a FROM t WHERE a >= 2` over 1, 2 and 3, which has six items, with this limit.
fn three_numbers(alloc: Global, row_limit: u64) -> Result<Driven, Fail>
    requires least { 1 ≤ row_limit }
    requires most { row_limit ≤ 2 ^ 40 }
{
    let tables = tables_of(alloc, &[ColumnKind::Int], "1;2;3;")?;
    let at_least_two = Test::Compare(Operand::Column(0), CompareOp::Ge, Operand::Number(2));
    let plan = plan_of(alloc, conditions_of(alloc, &[at_least_two])?, &[0], 3)?;
    Ok(Driven::start(alloc, tables, plan, row_limit)?)
}

/// Runs a plan that keeps every row of a table of so many, with this limit.
fn many_rows(alloc: Global, count: u32, row_limit: u64) -> Result<Driven, Fail>
    requires least { 1 ≤ row_limit }
    requires most { row_limit ≤ 2 ^ 40 }
{
    let mut rows = String::new(alloc);
    for _row in 0..count {
        rows.push_str("7;")?;
    }
    let tables = tables_of(alloc, &[ColumnKind::Int], rows.as_str())?;
    let plan = plan_of(alloc, conditions_of(alloc, &[])?, &[0], count)?;
    Ok(Driven::start(alloc, tables, plan, row_limit)?)
}

/// Compares how a run ends: its fault, the steps that it made, the rows that it read and gave out.
fn ends(
    rt: &impl Abort,
    name: &str,
    mut run: Driven,
    fault: Option<StepFault>,
    [steps, read, sent]: [u64; 3],
) -> Result<(), Fail> {
    let end = End {
        fault,
        steps,
        read,
        sent,
    };
    assert_eq!(rt; end_of(&mut run), Some(end), "{name}");
    assert_eq!(rt; run.step(), None, "{name}");
    assert_eq!(rt; run.finished(), fault.is_none(), "{name}");
    Ok(())
}

#[test]
fn limits_of_steps(rt: HostRuntime) -> Result<(), Fail> {
    let alloc = rt.alloc();
    let stopped = Some(StepFault::RowLimit);
    for (name, row_limit, fault, counts) in [
        ("after the open", 1, stopped, [1, 0, 0]),
        ("before the first emit", 3, stopped, [3, 2, 0]),
        ("before the last emit", 5, stopped, [5, 3, 1]),
        ("at the last item", 6, None, [6, 3, 2]),
        ("behind it", 7, None, [6, 3, 2]),
    ] {
        ends(&rt, name, three_numbers(alloc, row_limit)?, fault, counts)?;
    }
    Ok(())
}

#[test]
fn rows_within_the_limit(rt: HostRuntime) -> Result<(), Fail> {
    let mut run = three_numbers(rt.alloc(), 6)?;
    for _step in 0..6u32 {
        assert!(&rt; run.step().is_some());
    }
    let rows = run.into_rows().ok_or("no rows")?;
    assert_eq!(rt; text_of(rt.alloc(), &rows)?.as_str(), "2;3;");
    Ok(())
}

#[test]
fn most_rows_kept(rt: HostRuntime) -> Result<(), Fail> {
    let run = many_rows(rt.alloc(), 65_536, 1_000_000)?;
    ends(&rt, "65,536 rows", run, None, [131_073, 65_536, 65_536])
}

#[test]
fn one_row_too_many(rt: HostRuntime) -> Result<(), Fail> {
    let run = many_rows(rt.alloc(), 65_537, 1_000_000)?;
    let full = Some(StepFault::TooManyRows);
    ends(&rt, "65,537 rows", run, full, [131_074, 65_537, 65_536])
}

#[test]
fn both_limits_at_once(rt: HostRuntime) -> Result<(), Fail> {
    let run = many_rows(rt.alloc(), 65_537, 131_074)?;
    let stopped = Some(StepFault::RowLimit);
    ends(&rt, "both limits", run, stopped, [131_074, 65_537, 65_536])
}
