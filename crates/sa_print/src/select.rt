ghost use Rattle.std.specs.Prelude.{◌≡◌, ◌++◌, codes, map, if◌then◌else◌, [], OnOk};
ghost use Rattle.std.specs.Option.{option_map};
ghost use Rattle.sa_print.specs.Lists.{listed, clause, list_clause};
ghost use Rattle.sa_print.specs.Expression.{canonical_expr};
ghost use Rattle.sa_print.specs.Select.{item_text, table_text, tables_text, group_text, order_text, limit_text, offset_text, canonical_select};

use crate::printer::Printer;
use sa_ast::{ExprTree, GroupTree, ItemNode, ItemTree, OrderTree, SelectTree};
use sa_value::OutOfMemory;

impl Printer {
    /// Writes a query.
    pub(crate) fn select(&mut self, tree: &SelectTree) -> Result<(), OutOfMemory>
        ensures { OnOk result (self.new ≡ self.old ++ canonical_select tree.now) }
    {
        self.select_list(tree.distinct, tree.items.as_slice())?;
        self.from(tree.from.as_slice())?;
        self.condition(" WHERE ", &tree.filter)?;
        self.group(tree.group.as_slice())?;
        self.condition(" HAVING ", &tree.having)?;
        self.order(tree.order.as_slice())?;
        self.limit(tree.limit, tree.offset)
    }

    /// Writes SELECT and what it asks for.
    fn select_list(&mut self, distinct: bool, items: &[ItemTree]) -> Result<(), OutOfMemory>
        ensures { OnOk result (self.new ≡ self.old ++ codes "SELECT "
            ++ (if distinct then codes "DISTINCT " else []) ++ listed (map item_text items.now)) }
    {
        self.push(if distinct {
            "SELECT DISTINCT "
        } else {
            "SELECT "
        })?;
        self.items(items)
    }

    /// Writes the parts of a select list.
    fn items(&mut self, items: &[ItemTree]) -> Result<(), OutOfMemory>
        ensures { OnOk result (self.new ≡ self.old ++ listed (map item_text items.now)) }
    {
        match items {
            [] => Ok(()),
            [first, rest @ ..] => {
                self.item(first)?;
                for next in rest {
                    self.push(", ")?;
                    self.item(next)?;
                }
                Ok(())
            }
        }
    }

    /// Writes a part of a select list.
    fn item(&mut self, item: &ItemTree) -> Result<(), OutOfMemory>
        ensures { OnOk result (self.new ≡ self.old ++ item_text item.now) }
    {
        match &item.item {
            ItemNode::Star => self.push("*"),
            ItemNode::TableStar(table) => {
                self.name(table.name.as_str())?;
                self.push(".*")
            }
            ItemNode::Value { value, alias } => {
                self.expr(value)?;
                self.alias(alias)
            }
        }
    }

    /// Writes a clause of one condition, where there is one.
    pub(crate) fn condition(
        &mut self,
        word: &str,
        condition: &Option<ExprTree>,
    ) -> Result<(), OutOfMemory>
        ensures { OnOk result (self.new ≡ self.old
            ++ clause word.now (option_map canonical_expr condition.now)) }
    {
        match condition {
            None => Ok(()),
            Some(condition) => {
                self.push(word)?;
                self.expr(condition)
            }
        }
    }

    /// Writes GROUP BY, where it has items.
    fn group(&mut self, items: &[GroupTree]) -> Result<(), OutOfMemory>
        ensures { OnOk result (self.new ≡ self.old
            ++ list_clause (codes " GROUP BY ") (map group_text items.now)) }
    {
        match items {
            [] => Ok(()),
            [first, rest @ ..] => {
                self.push(" GROUP BY ")?;
                self.expr(&first.value)?;
                for next in rest {
                    self.push(", ")?;
                    self.expr(&next.value)?;
                }
                Ok(())
            }
        }
    }

    /// Writes ORDER BY, where it has items.
    fn order(&mut self, items: &[OrderTree]) -> Result<(), OutOfMemory>
        ensures { OnOk result (self.new ≡ self.old
            ++ list_clause (codes " ORDER BY ") (map order_text items.now)) }
    {
        match items {
            [] => Ok(()),
            [first, rest @ ..] => {
                self.push(" ORDER BY ")?;
                self.order_item(first)?;
                for next in rest {
                    self.push(", ")?;
                    self.order_item(next)?;
                }
                Ok(())
            }
        }
    }

    /// Writes an item of ORDER BY.
    fn order_item(&mut self, item: &OrderTree) -> Result<(), OutOfMemory>
        ensures { OnOk result (self.new ≡ self.old ++ order_text item.now) }
    {
        self.expr(&item.value)?;
        self.push(if item.down { " DESC" } else { "" })
    }

    /// Writes LIMIT, where there is one, and its OFFSET.
    fn limit(&mut self, limit: Option<u64>, offset: u64) -> Result<(), OutOfMemory>
        ensures { OnOk result (self.new ≡ self.old ++ limit_text limit offset) }
    {
        match limit {
            None => Ok(()),
            Some(limit) => {
                self.push(" LIMIT ")?;
                self.natural(u128::from(limit))?;
                self.offset(offset)
            }
        }
    }

    /// Writes OFFSET where it isn't 0.
    fn offset(&mut self, offset: u64) -> Result<(), OutOfMemory>
        ensures { OnOk result (self.new ≡ self.old ++ offset_text offset) }
    {
        if offset == 0 {
            Ok(())
        } else {
            self.push(" OFFSET ")?;
            self.natural(u128::from(offset))
        }
    }
}
