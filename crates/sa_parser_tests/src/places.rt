//! The places of the parts of a query.

use sa_ast::{
    GroupTrees, ItemNode, ItemTree, ItemTrees, OrderTrees, SelectTree, Statement, TableTrees,
};
use sa_lexer::tokens;
use sa_parser::parse;
use sa_parser_fixtures::fault_line;
use std::alloc::Global;
use std::test::Fail;

/// The place of a part of the select list, and that of its expression.
fn item_line(alloc: Global, item: &ItemTree) -> Result<String, Fail> {
    Ok(match &item.item {
        ItemNode::Value { value, .. } => format!(in alloc; "{} ({})", item.place, value.place)?,
        ItemNode::Star | ItemNode::TableStar(_) => format!(in alloc; "{}", item.place)?,
    })
}

/// The places of the select list and of its expressions.
fn items_line(alloc: Global, items: &ItemTrees) -> Result<String, Fail> {
    let mut line = String::from_str(alloc, "items")?;
    for item in items.as_slice() {
        line.push_str(" ")?;
        line.push_str(item_line(alloc, item)?.as_str())?;
    }
    Ok(line)
}

/// The places of the tables.
fn tables_line(alloc: Global, tables: &TableTrees) -> Result<String, Fail> {
    let mut line = String::from_str(alloc, "tables")?;
    for table in tables.as_slice() {
        line.push_str(format!(in alloc; " {}", table.name.place)?.as_str())?;
    }
    Ok(line)
}

/// The places of the items of GROUP BY and of their expressions.
fn groups_line(alloc: Global, items: &GroupTrees) -> Result<String, Fail> {
    let mut line = String::from_str(alloc, "groups")?;
    for item in items.as_slice() {
        line.push_str(format!(in alloc; " {} ({})", item.place, item.value.place)?.as_str())?;
    }
    Ok(line)
}

/// The places of the items of ORDER BY and of their expressions.
fn orders_line(alloc: Global, items: &OrderTrees) -> Result<String, Fail> {
    let mut line = String::from_str(alloc, "orders")?;
    for item in items.as_slice() {
        line.push_str(format!(in alloc; " {} ({})", item.place, item.value.place)?.as_str())?;
    }
    Ok(line)
}

/// The places of the parts of a query, in the order of its clauses.
fn select_line(alloc: Global, tree: &SelectTree) -> Result<String, Fail> {
    let items = items_line(alloc, &tree.items)?;
    let tables = tables_line(alloc, &tree.from)?;
    let groups = groups_line(alloc, &tree.group)?;
    let orders = orders_line(alloc, &tree.order)?;
    let having = tree.having_place;
    Ok(format!(in alloc; "{items}; {tables}; {groups}; having {having}; {orders}")?)
}

/// The places of a query, which the text has to be.
fn places_line(alloc: Global, text: &str) -> Result<String, Fail> {
    match parse(alloc, &tokens(alloc, text)?) {
        Ok(Statement::Select(tree)) => select_line(alloc, &tree),
        Ok(_) => Err(Fail::new("another statement")),
        Err(fault) => fault_line(alloc, fault),
    }
}

/// An operator stands at its sign or first word, an item at its first token, a literal at its minus.
#[test]
fn tells_places(rt: HostRuntime) -> Result<(), Fail> {
    let rows = [
        (
            "items and tables",
            "SELECT a + b * c, t.*, -5, *, COUNT(*) FROM t JOIN u",
            "items 7 (9) 18 23 (23) 27 30 (30); tables 44 51; groups; having 0; orders",
        ),
        (
            "brackets, NOT IN and a plus",
            "SELECT (a) IS NOT NULL, a NOT IN (1), +5 FROM t",
            "items 7 (11) 24 (26) 38 (39); tables 46; groups; having 0; orders",
        ),
        (
            "GROUP BY, HAVING and ORDER BY",
            "SELECT 1 FROM t GROUP BY t.a, (b - 1) HAVING c ORDER BY NOT d DESC, a OR b AND c",
            "items 7 (7); tables 14; groups 25 (25) 30 (33); having 38; orders 56 (56) 68 (70)",
        ),
    ];
    for (name, text, wanted) in rows {
        let found = places_line(rt.alloc(), text)?;
        assert_eq!(rt; found.as_str(), wanted, "{name}: {text:?}");
    }
    Ok(())
}
