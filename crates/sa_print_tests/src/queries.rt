//! Queries.

ghost use Rattle.sa_print.specs.Statement.{HasText};

use sa_ast::{
    ItemNode, ItemTree, ItemTrees, NameTree, SelectTree, Statement, TableTree, TableTrees,
};
use sa_print::statement_text;
use sa_value::{OutOfMemory, Text};
use sqlite_items::Items;
use std::alloc::Global;
use std::test::Fail;

/// The select list `*`.
fn star(alloc: Global) -> Result<ItemTrees, OutOfMemory> {
    let mut items = Items::new(alloc);
    items.push(ItemTree {
        item: ItemNode::Star,
        place: 0,
    })?;
    Ok(items)
}

/// One table of FROM.
fn one_table(alloc: Global, name: Text) -> Result<TableTrees, OutOfMemory> {
    let mut tables = Items::new(alloc);
    tables.push(TableTree {
        name: NameTree { name, place: 0 },
        alias: None,
        joined: false,
        on: None,
    })?;
    Ok(tables)
}

/// `EXPLAIN SELECT DISTINCT items FROM tables LIMIT 2 OFFSET 1`
fn explained(alloc: Global, items: ItemTrees, from: TableTrees) -> Statement
    ensures { HasText result }
{
    Statement::Explain(SelectTree {
        distinct: true,
        items,
        from,
        filter: None,
        group: Items::new(alloc),
        having: None,
        having_place: 0,
        order: Items::new(alloc),
        limit: Some(2),
        offset: 1,
    })
}

/// The text of such a statement.
fn explained_text(alloc: Global, items: ItemTrees, from: TableTrees) -> Result<Text, OutOfMemory> {
    statement_text(alloc, &explained(alloc, items, from))
}

#[test]
fn writes_a_query(rt: HostRuntime) -> Result<(), Fail> {
    let tables = one_table(rt.alloc(), Text::from_str(rt.alloc(), "t")?)?;
    let text = explained_text(rt.alloc(), star(rt.alloc())?, tables)?;
    assert_eq!(rt;
        text.as_str(),
        "EXPLAIN SELECT DISTINCT * FROM t LIMIT 2 OFFSET 1",
        "a query that is explained, with DISTINCT, a LIMIT and an OFFSET"
    );
    Ok(())
}
