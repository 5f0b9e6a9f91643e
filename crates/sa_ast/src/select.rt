use crate::expression::ExprTree;
use crate::name::NameTree;
use sqlite_items::Items;

/// A query.
///
/// Source: MariaDB Knowledge Base, "SELECT".
#[derive(Debug, Drop)]
pub struct SelectTree {
    pub distinct: bool,
    pub items: ItemTrees,
    pub from: TableTrees,
    /// The condition of WHERE.
    pub filter: Option<ExprTree>,
    pub group: GroupTrees,
    pub having: Option<ExprTree>,
    /// The word HAVING, and 0 without one.
    pub having_place: usize,
    pub order: OrderTrees,
    pub limit: Option<u64>,
    /// How many rows are passed over before the first; 0 where none is written.
    pub offset: u64,
}

/// A part of the select list.
#[derive(Debug, Drop)]
pub struct ItemTree {
    pub item: ItemNode,
    /// Its first token.
    pub place: usize,
}

/// The select list.
pub type ItemTrees = Items<ItemTree>;

/// What a part of the select list asks for.
#[derive(Debug, Drop)]
pub enum ItemNode {
    /// `*`, the columns of all tables.
    Star,
    /// `t.*`, the columns of one.
    TableStar(NameTree),
    Value {
        value: ExprTree,
        alias: Option<NameTree>,
    },
}

/// A table of FROM.
#[derive(Debug, Drop)]
pub struct TableTree {
    pub name: NameTree,
    pub alias: Option<NameTree>,
    /// Whether JOIN stands before it, and not a comma or FROM.
    pub joined: bool,
    /// The condition of ON.
    pub on: Option<ExprTree>,
}

/// The tables of FROM.
pub type TableTrees = Items<TableTree>;

/// An item of GROUP BY.
#[derive(Debug, Drop)]
pub struct GroupTree {
    pub value: ExprTree,
    /// Its first token.
    pub place: usize,
}

/// The items of GROUP BY.
pub type GroupTrees = Items<GroupTree>;

/// An item of ORDER BY.
#[derive(Debug, Drop)]
pub struct OrderTree {
    pub value: ExprTree,
    /// Whether DESC is written.
    pub down: bool,
    /// Its first token.
    pub place: usize,
}

/// The items of ORDER BY.
pub type OrderTrees = Items<OrderTree>;
