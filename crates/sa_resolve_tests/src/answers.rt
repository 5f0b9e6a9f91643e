//! What a statement is resolved to, as a line that a table can hold.

use crate::fixtures::fault_line;
use crate::lines::push_query;
use crate::setup::tables;
use sa_ast::{SelectTree, Statement};
use sa_lexer::tokens;
use sa_parser::parse;
use sa_query::Query;
use sa_resolve::{ResolveFault, resolve};
use sa_table::Tables;
use sa_value::OutOfMemory;
use std::alloc::Global;
use std::test::Fail;

/// The query that a SELECT stands for, or its fault.
pub(crate) fn answer_line(alloc: Global, text: &str) -> Result<String, Fail> {
    match parse(alloc, &tokens(alloc, text)?) {
        Ok(tree) => statement_line(alloc, &tree),
        Err(fault) => fault_line(alloc, fault),
    }
}

fn statement_line(alloc: Global, tree: &Statement) -> Result<String, Fail> {
    match tree {
        Statement::Select(tree) => select_line(alloc, tree),
        _ => Err(Fail::new("no SELECT")),
    }
}

fn select_line(alloc: Global, tree: &SelectTree) -> Result<String, Fail> {
    let tables = tables(alloc)?;
    Ok(resolved_line(alloc, tree, &tables)?)
}

fn resolved_line(alloc: Global, tree: &SelectTree, tables: &Tables) -> Result<String, OutOfMemory> {
    match resolve(alloc, tree, tables) {
        Ok(query) => query_line(alloc, &query),
        Err(fault) => told_line(alloc, fault),
    }
}

fn query_line(alloc: Global, query: &Query) -> Result<String, OutOfMemory> {
    let mut line = String::new(alloc);
    push_query(&mut line, query)?;
    Ok(line)
}

/// A fault in a line: its kind and its place.
fn told_line(alloc: Global, fault: ResolveFault) -> Result<String, OutOfMemory> {
    match fault {
        ResolveFault::Bad { kind, place } => Ok(format!(in alloc; "{kind:?} at {place}")?),
        ResolveFault::OutOfMemory => Err(OutOfMemory),
    }
}
