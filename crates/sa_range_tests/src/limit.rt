//! The limit of 1,024 pieces.

use crate::left::leaves;
use sa_value::OutOfMemory;
use std::alloc::Global;
use std::test::Fail;

/// The numbers from 1 on, with a comma between two.
fn numbers(alloc: Global, count: u32) -> Result<String, OutOfMemory> {
    let mut text = String::from_str(alloc, "1")?;
    for number in 2..count.saturating_add(1) {
        text.push_str(format!(in alloc; ", {number}")?.as_str())?;
    }
    Ok(text)
}

/// The points from 1 on, each a range.
fn points(alloc: Global, count: u32) -> Result<String, OutOfMemory> {
    let mut text = String::from_str(alloc, "1: [1..1]")?;
    for number in 2..count.saturating_add(1) {
        text.push_str(format!(in alloc; "; [{number}..{number}]")?.as_str())?;
    }
    Ok(text)
}

/// The gaps between the numbers from 1 on, each a range.
fn gaps(alloc: Global, count: u32) -> Result<String, OutOfMemory> {
    let mut text = String::from_str(alloc, "1: (NULL..1)")?;
    for number in 1..count {
        let next = number.saturating_add(1);
        text.push_str(format!(in alloc; "; ({number}..{next})")?.as_str())?;
    }
    text.push_str(format!(in alloc; "; ({count}..]")?.as_str())?;
    Ok(text)
}

/// The pairs of the numbers from 1 on, each a range.
fn pairs(alloc: Global, firsts: u32, seconds: u32) -> Result<String, OutOfMemory> {
    let mut text = String::from_str(alloc, "2:")?;
    for a in 1..firsts.saturating_add(1) {
        for b in 1..seconds.saturating_add(1) {
            text.push_str(if a == 1 && b == 1 { " " } else { "; " })?;
            text.push_str(format!(in alloc; "[{a}, {b}..{a}, {b}]")?.as_str())?;
        }
    }
    Ok(text)
}

/// A condition on a alone: a word between a and a list, the list, and what stands behind it.
fn listed(alloc: Global, word: &str, count: u32, rest: &str) -> Result<String, OutOfMemory> {
    let list = numbers(alloc, count)?;
    let list = list.as_str();
    Ok(format!(in alloc; "a {word} ({list}){rest}")?)
}

#[test]
fn a_part_with_more_points_is_left_out(rt: HostRuntime) -> Result<(), Fail> {
    let alloc = rt.alloc();
    let most = listed(alloc, "IN", 1024, "")?;
    let each = points(alloc, 1024)?;
    leaves(&rt, alloc, "points", "a", most.as_str(), each.as_str());
    let more = listed(alloc, "IN", 1025, "")?;
    leaves(&rt, alloc, "a point more", "a", more.as_str(), "0: [..]");
    Ok(())
}

#[test]
fn a_part_with_more_gaps_is_left_out(rt: HostRuntime) -> Result<(), Fail> {
    let alloc = rt.alloc();
    let most = listed(alloc, "NOT IN", 1023, "")?;
    let each = gaps(alloc, 1023)?;
    leaves(&rt, alloc, "gaps", "a", most.as_str(), each.as_str());
    let more = listed(alloc, "NOT IN", 1024, "")?;
    leaves(&rt, alloc, "a gap more", "a", more.as_str(), "0: [..]");
    Ok(())
}

#[test]
fn pieces_are_counted_before_they_are_united(rt: HostRuntime) -> Result<(), Fail> {
    let alloc = rt.alloc();
    let most = listed(alloc, "IN", 512, " OR a >= 1")?;
    leaves(&rt, alloc, "a range", "a", most.as_str(), "1: [1..]");
    let more = listed(alloc, "IN", 512, " OR a >= 1 OR a IS NULL")?;
    leaves(&rt, alloc, "with NULL", "a", more.as_str(), "0: [..]");
    Ok(())
}

#[test]
fn fewer_parts_serve_where_all_are_too_many(rt: HostRuntime) -> Result<(), Fail> {
    let alloc = rt.alloc();
    let most = both(alloc, 32, 32)?;
    let each = pairs(alloc, 32, 32)?;
    leaves(&rt, alloc, "pairs", "a, b", most.as_str(), each.as_str());
    let more = both(alloc, 33, 32)?;
    let each = points(alloc, 33)?;
    leaves(
        &rt,
        alloc,
        "too many pairs",
        "a, b",
        more.as_str(),
        each.as_str(),
    );
    leaves(
        &rt,
        alloc,
        "three parts",
        "a, b, n",
        more.as_str(),
        each.as_str(),
    );
    let none = format!(in alloc; "{0} AND n = 1 AND n = 2", more.as_str())?;
    leaves(
        &rt,
        alloc,
        "no triple",
        "a, b, n",
        none.as_str(),
        each.as_str(),
    );
    Ok(())
}

/// A condition on a and b: the numbers from 1 on, so many of each.
fn both(alloc: Global, firsts: u32, seconds: u32) -> Result<String, OutOfMemory> {
    let list = numbers(alloc, seconds)?;
    let list = list.as_str();
    let rest = format!(in alloc; " AND b IN ({list})")?;
    listed(alloc, "IN", firsts, rest.as_str())
}
