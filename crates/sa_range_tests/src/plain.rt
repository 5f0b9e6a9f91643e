//! The ranges of conditions that are made from numbers, against a plain way to tell them.

use crate::left::{leaves_of, simplified};
use crate::made::{Dice, made};
use crate::plain_ranges::ranges_text;
use sa_cond::Cond;
use sa_value::OutOfMemory;
use std::alloc::Global;
use std::process::Abort;
use std::test::Fail;

#[test]
fn conditions_leave_what_a_plain_way_tells(rt: HostRuntime) -> Result<(), Fail> {
    for number in 0..500 {
        leaves_what_a_plain_way_tells(&rt, rt.alloc(), number)?;
    }
    Ok(())
}

/// The condition of this number leaves of keys over a and b what a plain way tells.
fn leaves_what_a_plain_way_tells(
    rt: &impl Abort,
    alloc: Global,
    number: u64,
) -> Result<(), OutOfMemory> {
    let mut dice = Dice::new(number);
    let sql = made(alloc, &mut dice)?;
    let name = named(alloc, number, sql.as_str())?;
    both_keys_agree(rt, alloc, name.as_str(), sql.as_str())
}

/// What a failure prints: the number and its condition.
fn named(alloc: Global, number: u64, sql: &str) -> Result<String, OutOfMemory> {
    Ok(format!(in alloc; "{number}: {sql}")?)
}

/// A condition leaves of the two keys what a plain way tells.
fn both_keys_agree(
    rt: &impl Abort,
    alloc: Global,
    name: &str,
    sql: &str,
) -> Result<(), OutOfMemory> {
    match simplified(alloc, sql) {
        None => {
            assert!(rt; false, "{name}: no condition");
            Ok(())
        }
        Some(filter) => both_agree(rt, alloc, name, &filter),
    }
}

fn both_agree(
    rt: &impl Abort,
    alloc: Global,
    name: &str,
    filter: &Cond,
) -> Result<(), OutOfMemory> {
    agrees(rt, alloc, name, "a, b", filter, 0, 1)?;
    agrees(rt, alloc, name, "b, a", filter, 1, 0)
}

/// A condition leaves of a key of two columns what a plain way tells.
fn agrees(
    rt: &impl Abort,
    alloc: Global,
    name: &str,
    key: &str,
    filter: &Cond,
    first: u32,
    second: u32,
) -> Result<(), OutOfMemory> {
    let expected = ranges_text(alloc, filter, first, second)?;
    leaves_of(rt, alloc, name, key, filter, expected.as_str());
    Ok(())
}
