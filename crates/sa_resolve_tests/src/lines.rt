//! Queries in a line, each part with what is in it.

use crate::trees::{push_cond, push_expr};
use sa_cond::Cond;
use sa_query::{Aggregate, Column, Item, OrderKey, Query, TableUse};
use sa_value::OutOfMemory;

/// A query's parts, each with what is in it.
pub(crate) fn push_query(line: &mut String, query: &Query) -> Result<(), OutOfMemory> {
    push_tables(line, query.tables.as_slice())?;
    line.push_str(" | filter ")?;
    push_cond(line, &query.filter)?;
    push_items(line, query.distinct, query.select.as_slice())?;
    push_columns(line, query.group.as_slice())?;
    push_aggregates(line, query.aggregates.as_slice())?;
    push_having(line, &query.having)?;
    push_order(line, query.order.as_slice())?;
    push_limits(line, query.limit, query.offset)
}

fn push_tables(line: &mut String, tables: &[TableUse]) -> Result<(), OutOfMemory> {
    line.push_str("from")?;
    for used in tables {
        write!(line, " {} {}", used.table, used.alias.as_str())?;
    }
    Ok(())
}

fn push_items(line: &mut String, distinct: bool, items: &[Item]) -> Result<(), OutOfMemory> {
    line.push_str(if distinct { " | distinct" } else { " | select" })?;
    for item in items {
        write!(line, " {}=", item.name.as_str())?;
        push_expr(line, &item.value)?;
    }
    Ok(())
}

fn push_columns(line: &mut String, columns: &[Column]) -> Result<(), OutOfMemory> {
    if !columns.is_empty() {
        line.push_str(" | group")?;
    }
    for one in columns {
        write!(line, " {}.{}", one.table, one.column)?;
    }
    Ok(())
}

fn push_aggregates(line: &mut String, aggregates: &[Aggregate]) -> Result<(), OutOfMemory> {
    if !aggregates.is_empty() {
        line.push_str(" | aggregates")?;
    }
    for one in aggregates {
        write!(line, " {:?}", one.call)?;
        if let Some(argument) = &one.argument {
            line.push_str(" ")?;
            push_expr(line, argument)?;
        }
    }
    Ok(())
}

fn push_having(line: &mut String, having: &Option<Cond>) -> Result<(), OutOfMemory> {
    if let Some(having) = having {
        line.push_str(" | having ")?;
        push_cond(line, having)?;
    }
    Ok(())
}

fn push_order(line: &mut String, keys: &[OrderKey]) -> Result<(), OutOfMemory> {
    if !keys.is_empty() {
        line.push_str(" | order")?;
    }
    for key in keys {
        line.push_str(if key.down { " -" } else { " +" })?;
        push_expr(line, &key.value)?;
    }
    Ok(())
}

fn push_limits(line: &mut String, limit: Option<u64>, offset: u64) -> Result<(), OutOfMemory> {
    if let Some(limit) = limit {
        write!(line, " | limit {limit}")?;
    }
    if offset > 0 {
        write!(line, " | offset {offset}")?;
    }
    Ok(())
}
