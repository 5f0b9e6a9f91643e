//! Plans of one level, every step of whose runs is compared with the list of their items.

use crate::driven::Driven;
use crate::rows::text_of;
use sa_count::{Counters, Report};
use sa_exec::Step;
use sa_plan_fixtures::{Operand, Test, conditions_of, plan_of, tables_of};
use sa_table::ColumnKind;
use sa_value::{CompareOp, Truth};
use std::alloc::Global;
use std::process::Abort;
use std::test::Fail;

/// What a run does in a step.
#[derive(Clone, Copy, Debug, PartialEq, Eq)]
enum Made {
    Open,
    Read { passed: bool },
    Emit,
}

/// A plan over one table, and what its run does.
#[derive(Clone, Copy)]
struct Case<'a> {
    name: &'a str,
    kinds: &'a [ColumnKind],
    /// The table's rows.
    rows: &'a str,
    conditions: &'a [Test],
    select: &'a [u32],
    /// Of each row, whether it passes all conditions: `+` or `-`.
    verdicts: &'a str,
    /// The rows that are given.
    given: &'a str,
}

/// The list of items: the table is opened, its rows are read in order, each that passes is emitted.
fn items_of(alloc: Global, verdicts: &str) -> Result<Vec<Made>, Fail> {
    let mut items = Vec::new(alloc);
    items.push(Made::Open)?;
    for verdict in verdicts.bytes() {
        let passed = verdict == b'+';
        items.push(Made::Read { passed })?;
        if passed {
            items.push(Made::Emit)?;
        }
    }
    Ok(items)
}

/// How many of the items are like this one.
fn count(items: &[Made], like: Made) -> u64 {
    items.iter().filter(|item| **item == like).count() as u64
}

/// Compares a report with the counts of the items that were made.
fn reports(rt: &impl Abort, name: &str, report: &Report, made: &[Made]) {
    let passed = count(made, Made::Read { passed: true });
    let failed = count(made, Made::Read { passed: false });
    let counters = Counters {
        loops: count(made, Made::Open),
        rows: passed.wrapping_add(failed),
        passed,
    };
    let steps = made.len();
    assert_eq!(rt; report.statement, 7, "{name} after {steps}");
    assert_eq!(rt; report.steps, steps as u64, "{name} after {steps}");
    assert_eq!(rt;
        report.sent,
        count(made, Made::Emit),
        "{name} after {steps}"
    );
    assert_eq!(rt;
        report.tables.as_slice(),
        [counters].as_slice(),
        "{name} after {steps}"
    );
}

/// Runs the plan, and compares each step with its item.
fn follows(rt: &impl Abort, alloc: Global, case: &Case<'_>) -> Result<(), Fail> {
    let name = case.name;
    let tables = tables_of(alloc, case.kinds, case.rows)?;
    let conditions = conditions_of(alloc, case.conditions)?;
    let plan = plan_of(alloc, conditions, case.select, 4)?;
    let items = items_of(alloc, case.verdicts)?;
    let mut run = Driven::start(alloc, tables, plan, 1_000)?;
    reports(rt, name, &run.report(), &[]);
    for index in 0..items.len() {
        assert!(rt; !run.finished(), "{name} after {index}");
        let last = index + 1 == items.len();
        let step = if last { Step::Finished } else { Step::More };
        assert_eq!(rt; run.step(), Some(Ok(step)), "{name} after {index}");
        reports(rt, name, &run.report(), &items[..index + 1]);
    }
    assert!(rt; run.finished(), "{name}");
    assert_eq!(rt; run.step(), None, "{name}");
    let rows = run.into_rows().ok_or("no rows")?;
    assert_eq!(rt; text_of(alloc, &rows)?.as_str(), case.given, "{name}");
    Ok(())
}

/// The columns `a INT` and `b INT`.
const PAIR: [ColumnKind; 2] = [ColumnKind::Int, ColumnKind::Int];

/// The columns `a INT` and `b VARCHAR(5)`.
const LABELLED: [ColumnKind; 2] = [ColumnKind::Int, ColumnKind::VarChar(5)];

const A: Operand = Operand::Column(0);

const B: Operand = Operand::Column(1);

#[test]
fn no_rows(rt: HostRuntime) -> Result<(), Fail> {
    let case = Case {
        name: "no rows",
        kinds: &[ColumnKind::Int],
        rows: "",
        conditions: &[],
        select: &[0],
        verdicts: "",
        given: "",
    };
    follows(&rt, rt.alloc(), &case)
}

#[test]
fn all_pairs(rt: HostRuntime) -> Result<(), Fail> {
    let case = Case {
        name: "all pairs",
        kinds: &PAIR,
        rows: "NULL,1;2,2;2,3;1,4;",
        conditions: &[],
        select: &[0, 1],
        verdicts: "++++",
        given: "NULL,1;2,2;2,3;1,4;",
    };
    follows(&rt, rt.alloc(), &case)
}

#[test]
fn a_number_and_a_literal(rt: HostRuntime) -> Result<(), Fail> {
    let case = Case {
        name: "a >= 2",
        kinds: &[ColumnKind::Int],
        rows: "1;2;3;",
        conditions: &[Test::Compare(A, CompareOp::Ge, Operand::Number(2))],
        select: &[0],
        verdicts: "-++",
        given: "2;3;",
    };
    follows(&rt, rt.alloc(), &case)
}

#[test]
fn two_columns(rt: HostRuntime) -> Result<(), Fail> {
    let case = Case {
        name: "a < b",
        kinds: &PAIR,
        rows: "1,2;2,2;3,2;NULL,2;",
        conditions: &[Test::Compare(A, CompareOp::Lt, B)],
        select: &[1, 0],
        verdicts: "+---",
        given: "2,1;",
    };
    follows(&rt, rt.alloc(), &case)
}

#[test]
fn equal_to_null(rt: HostRuntime) -> Result<(), Fail> {
    let case = Case {
        name: "a = NULL",
        kinds: &[ColumnKind::Int],
        rows: "NULL;1;",
        conditions: &[Test::Compare(A, CompareOp::Eq, Operand::Null)],
        select: &[0],
        verdicts: "--",
        given: "",
    };
    follows(&rt, rt.alloc(), &case)
}

#[test]
fn null_safe(rt: HostRuntime) -> Result<(), Fail> {
    let case = Case {
        name: "a <=> NULL",
        kinds: &[ColumnKind::Int],
        rows: "NULL;1;",
        conditions: &[Test::Compare(A, CompareOp::NullEq, Operand::Null)],
        select: &[0],
        verdicts: "+-",
        given: "NULL;",
    };
    follows(&rt, rt.alloc(), &case)
}

#[test]
fn is_null(rt: HostRuntime) -> Result<(), Fail> {
    let case = Case {
        name: "b IS NULL",
        kinds: &LABELLED,
        rows: "1,x;2,NULL;",
        conditions: &[Test::IsNull(B)],
        select: &[1],
        verdicts: "-+",
        given: "NULL;",
    };
    follows(&rt, rt.alloc(), &case)
}

#[test]
fn is_not_null(rt: HostRuntime) -> Result<(), Fail> {
    let case = Case {
        name: "a IS NOT NULL",
        kinds: &[ColumnKind::Int],
        rows: "NULL;1;NULL;",
        conditions: &[Test::NotNull(A)],
        select: &[0],
        verdicts: "-+-",
        given: "1;",
    };
    follows(&rt, rt.alloc(), &case)
}

#[test]
fn two_conditions(rt: HostRuntime) -> Result<(), Fail> {
    let case = Case {
        name: "a >= 2 and b < 3",
        kinds: &PAIR,
        rows: "NULL,1;2,2;2,3;1,2;",
        conditions: &[
            Test::Compare(A, CompareOp::Ge, Operand::Number(2)),
            Test::Compare(B, CompareOp::Lt, Operand::Number(3)),
        ],
        select: &[1],
        verdicts: "-+--",
        given: "2;",
    };
    follows(&rt, rt.alloc(), &case)
}

#[test]
fn unknown(rt: HostRuntime) -> Result<(), Fail> {
    let case = Case {
        name: "TRUE and UNKNOWN",
        kinds: &[ColumnKind::Int],
        rows: "1;2;",
        conditions: &[Test::Known(Truth::True), Test::Known(Truth::Unknown)],
        select: &[0],
        verdicts: "--",
        given: "",
    };
    follows(&rt, rt.alloc(), &case)
}

#[test]
fn between(rt: HostRuntime) -> Result<(), Fail> {
    let case = Case {
        name: "a BETWEEN 2 AND 3",
        kinds: &[ColumnKind::Int],
        rows: "1;2;3;4;NULL;",
        conditions: &[Test::Between(A, 2, 3)],
        select: &[0],
        verdicts: "-++--",
        given: "2;3;",
    };
    follows(&rt, rt.alloc(), &case)
}

#[test]
fn not_between(rt: HostRuntime) -> Result<(), Fail> {
    let case = Case {
        name: "a NOT BETWEEN 2 AND 3",
        kinds: &[ColumnKind::Int],
        rows: "1;2;3;4;NULL;",
        conditions: &[Test::NotBetween(A, 2, 3)],
        select: &[0],
        verdicts: "+--+-",
        given: "1;4;",
    };
    follows(&rt, rt.alloc(), &case)
}

#[test]
fn texts(rt: HostRuntime) -> Result<(), Fail> {
    let case = Case {
        name: "b <= 'B'",
        kinds: &LABELLED,
        rows: "1,A;2,B;3,a;4,;",
        conditions: &[Test::Compare(B, CompareOp::Le, Operand::Text("B"))],
        select: &[1, 0, 1],
        verdicts: "++-+",
        given: "A,1,A;B,2,B;,4,;",
    };
    follows(&rt, rt.alloc(), &case)
}

#[test]
fn wide_numbers(rt: HostRuntime) -> Result<(), Fail> {
    let case = Case {
        name: "a <> 0",
        kinds: &[ColumnKind::BigInt],
        rows: "-9223372036854775808;0;9223372036854775807;",
        conditions: &[Test::Compare(A, CompareOp::Ne, Operand::Number(0))],
        select: &[0],
        verdicts: "+-+",
        given: "-9223372036854775808;9223372036854775807;",
    };
    follows(&rt, rt.alloc(), &case)
}
