//! Statements that set tables up, as lines that a table can hold.

use crate::lines::fault_line;
use sa_ast::{
    ColumnTree, CreateTree, InsertTree, KeyTree, KindTree, NameTrees, Statement, TupleTree,
};
use sa_lexer::tokens;
use sa_parser::parse_setup;
use sa_value::{Texts, Value, ValueRef};
use std::alloc::Global;
use std::test::Fail;

/// The texts with commas between them.
fn texts_line(alloc: Global, texts: &Texts) -> Result<String, Fail> {
    let mut line = String::new(alloc);
    for text in texts.as_slice() {
        if !line.is_empty() {
            line.push_str(",")?;
        }
        line.push_str(text.as_str())?;
    }
    Ok(line)
}

/// A column in a line, with `!` where it may not hold NULL.
fn column_line(alloc: Global, column: &ColumnTree) -> Result<String, Fail> {
    let name = column.name.as_str();
    let mark = if column.not_null { "!" } else { "" };
    Ok(match column.kind {
        KindTree::Int => format!(in alloc; "{name} INT{mark}")?,
        KindTree::BigInt => format!(in alloc; "{name} BIGINT{mark}")?,
        KindTree::VarChar(size) => format!(in alloc; "{name} VARCHAR({size}){mark}")?,
    })
}

/// A key in a line.
fn key_line(alloc: Global, key: &KeyTree) -> Result<String, Fail> {
    let kind = match (key.primary, key.unique) {
        (true, true) => "PRIMARY",
        (false, true) => "UNIQUE",
        (false, false) => "KEY",
        (true, false) => "?",
    };
    let name = match &key.name {
        Some(name) => name.as_str(),
        None => "",
    };
    let columns = texts_line(alloc, &key.columns)?;
    Ok(format!(in alloc; "{kind} {name}({columns})")?)
}

/// A table's definition in a line.
fn create_line(alloc: Global, tree: &CreateTree) -> Result<String, Fail> {
    let mut line = String::from_str(alloc, tree.name.name.as_str())?;
    for column in tree.columns.as_slice() {
        line.push_str("; ")?;
        line.push_str(column_line(alloc, column)?.as_str())?;
    }
    for key in tree.keys.as_slice() {
        line.push_str("; ")?;
        line.push_str(key_line(alloc, key)?.as_str())?;
    }
    Ok(line)
}

/// A value in a line.
fn value_line(alloc: Global, value: &Value) -> Result<String, Fail> {
    Ok(match value.view() {
        ValueRef::Null => String::from_str(alloc, "NULL")?,
        ValueRef::Int(number) => format!(in alloc; "{number}")?,
        ValueRef::Big(number) => format!(in alloc; "big {number}")?,
        ValueRef::Text(text) => format!(in alloc; "'{text}'")?,
    })
}

/// A tuple in a line, with its place.
fn tuple_line(alloc: Global, tuple: &TupleTree) -> Result<String, Fail> {
    let mut line = format!(in alloc; "at {}:", tuple.place)?;
    for value in tuple.values.as_slice() {
        line.push_str(" ")?;
        line.push_str(value_line(alloc, value)?.as_str())?;
    }
    Ok(line)
}

/// The columns that an INSERT names, in a line.
fn columns_line(alloc: Global, columns: &Option<NameTrees>) -> Result<String, Fail> {
    let mut line = String::new(alloc);
    if let Some(columns) = columns {
        for column in columns.as_slice() {
            line.push_str(" ")?;
            line.push_str(column.name.as_str())?;
        }
    }
    Ok(line)
}

/// Rows for a table in a line.
fn insert_line(alloc: Global, tree: &InsertTree) -> Result<String, Fail> {
    let mut line = String::from_str(alloc, tree.table.name.as_str())?;
    line.push_str(columns_line(alloc, &tree.columns)?.as_str())?;
    for tuple in tree.tuples.as_slice() {
        line.push_str("; ")?;
        line.push_str(tuple_line(alloc, tuple)?.as_str())?;
    }
    Ok(line)
}

/// What a statement that sets tables up is read as.
pub fn setup_line(alloc: Global, text: &str) -> Result<String, Fail> {
    match parse_setup(alloc, &tokens(alloc, text)?) {
        Ok(Statement::Create(tree)) => create_line(alloc, &tree),
        Ok(Statement::Insert(tree)) => insert_line(alloc, &tree),
        Ok(_) => Err(Fail::new("a statement of a session")),
        Err(fault) => fault_line(alloc, fault),
    }
}
