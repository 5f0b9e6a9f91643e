//! The query of a SELECT, with its filter simplified.

ghost use Rattle.std.specs.Prelude.{◌≡◌, ◌≤◌, false, length, IfOk, OnOk};
ghost use Rattle.sa_simplify.specs.Simple.{IsWellTyped as IsTypedCond, simple};
ghost use Rattle.sa_query.specs.Meaning.{does_group};
ghost use Rattle.sa_query.specs.WellTyped.{IsWellTyped};

use sa_ast::{SelectTree, Statement};
use sa_lexer::tokens;
use sa_parser::parse;
use sa_query::Query;
use sa_resolve::{a_filter_is_well_typed, resolve};
use sa_simplify::{simple_is_stable, simple_is_typed, simple_names_no_more, simplify};
use sa_table::Tables;
use sa_value::OutOfMemory;
use std::alloc::Global;
use std::test::Fail;

/// The query of a SELECT that groups nothing.
pub(crate) fn asked(alloc: Global, tables: &Tables, text: &str) -> Result<Query, Fail>
    ensures fits { IfOk result (IsWellTyped tables.now) }
    ensures simplified { IfOk result (λ query. simple query.filter ≡ query.filter) }
{
    match parse(alloc, &tokens(alloc, text)?) {
        Ok(Statement::Select(tree)) => resolved(alloc, tables, &tree),
        _ => Err(Fail::new("no SELECT")),
    }
}

fn resolved(alloc: Global, tables: &Tables, tree: &SelectTree) -> Result<Query, Fail>
    ensures fits { IfOk result (IsWellTyped tables.now) }
    ensures simplified { IfOk result (λ query. simple query.filter ≡ query.filter) }
{
    simple_is_typed();
    simple_names_no_more();
    simple_is_stable();
    let query = written(alloc, tables, tree)?;
    Ok(simplified(alloc, query)?)
}

/// The query as it is written.
fn written(alloc: Global, tables: &Tables, tree: &SelectTree) -> Result<Query, Fail>
    ensures { IfOk result (IsWellTyped tables.now) }
{
    a_filter_is_well_typed();
    match resolve(alloc, tree, tables) {
        Ok(query) => over_rows(query),
        Err(_) => Err(Fail::new("a fault")),
    }
}

/// The same query, where it has a table and groups nothing.
fn over_rows(query: Query) -> Result<Query, Fail>
    ensures same { IfOk result (λ same. same ≡ query) }
    ensures some { OnOk result (1 ≤ length query.tables) }
    ensures rows { OnOk result (does_group query ≡ false) }
{
    if query.tables.is_empty() || groups(&query) {
        return Err(Fail::new("no rows"));
    }
    Ok(query)
}

/// Whether a query groups.
fn groups(query: &Query) -> bool
    ensures { result ≡ does_group query.now }
{
    match (query.group.as_slice(), query.aggregates.as_slice()) {
        ([], []) => false,
        _ => true,
    }
}

/// The query with its filter simplified.
fn simplified(alloc: Global, query: Query) -> Result<Query, OutOfMemory>
    requires { IsTypedCond query.filter }
    ensures { IfOk result (λ done. done ≡ record query { filter = simple query.filter }) }
{
    let Query {
        tables,
        filter,
        select,
        group,
        aggregates,
        having,
        distinct,
        order,
        limit,
        offset,
    } = query;
    Ok(Query {
        tables,
        filter: simplify(alloc, filter)?,
        select,
        group,
        aggregates,
        having,
        distinct,
        order,
        limit,
        offset,
    })
}
