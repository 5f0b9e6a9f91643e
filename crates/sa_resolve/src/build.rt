ghost use Rattle.std.specs.Prelude.{◌≡◌, ℕ, ◌<◌, ◌^◌, List, [], length, slice_get, None, Some, option_and_then, IfOk};
ghost use Rattle.sa_table.specs.Table.{Table};
ghost use Rattle.sa_resolve.specs.declared.build.Stage.TheVariants as stages;
ghost use Rattle.sa_resolve.specs.Clauses.{item_at, positioned};
ghost use Rattle.sa_resolve.specs.Expression.{Scope as Seen, column_reading, name_reading, reading};
ghost use Rattle.sa_resolve.specs.Node.{aggregate_of, number_value};
ghost use Rattle.sa_resolve.specs.Reading.{Reading, no_expr};
ghost use Rattle.sa_resolve.specs.Selected.{Selected};
ghost use Rattle.sa_resolve.specs.inner.Building.{IsLast, IsStage, built, placed};
ghost use Rattle.sa_resolve.specs.inner.Meanings.{IsAlias};
ghost use Rattle.sa_resolve.specs.inner.Names.{Sees};
ghost use Rattle.sa_resolve.specs.inner.Walking.{built_call, value_or};

use crate::alias::Alias;
use crate::copy::copied;
use crate::scope::{Meaning, Scope};
use crate::slots::Slots;
use sa_ast::{AggregateCall, ExprNode, ExprTree};
use sa_cond::Expr;
use sa_query::{Aggregate, Column, Item};
use sa_value::{OutOfMemory, Text, Value};
use sqlite_items::Boxed;

/// What trees are built over.
#[derive(Clone, Copy)]
pub(crate) enum Stage<'b> {
    /// The rows of the tables.
    Rows,
    /// What the query's select list is over, that is slots where it groups. An alias stands for its
    /// item.
    Answer {
        slots: Option<&'b Slots>,
        items: &'b [Item],
    },
}

/// Makes the trees of expressions whose names are resolved in a scope.
#[derive(Clone, Copy)]
pub(crate) struct Builder<'a, 's, 't, 'b> {
    pub(crate) scope: Scope<'a, 's, 't>,
    pub(crate) stage: Stage<'b>,
}

/// What stands where no value is: nobody looks at it.
fn no_expr() -> Expr
    ensures { result ≡ no_expr }
{
    Expr::Literal(Value::Null)
}

/// The value of a number as it is written.
fn number_value(number: i128) -> Value
    ensures { result ≡ number_value number }
{
    match i64::try_from(number) {
        Ok(number) => Value::Int(number),
        Err(_) => Value::Big(number),
    }
}

impl<'a, 's, 't, 'b> Builder<'a, 's, 't, 'b> {
    /// Makes trees over rows.
    pub(crate) fn over_rows(scope: Scope<'a, 's, 't>) -> Builder<'a, 's, 't, 'b>
        ensures scope { result.scope ≡ scope.entry }
        ensures stage { result.stage ≡ stages.Rows }
    {
        Builder {
            scope,
            stage: Stage::Rows,
        }
    }

    /// Makes conditions that filter rows: what they are over has no slots.
    pub(crate) fn filtering(scope: Scope<'a, 's, 't>) -> Builder<'a, 's, 't, 'b>
        ensures scope { result.scope ≡ scope.entry }
        ensures stage { (seen : Seen) → seen.slots ≡ None → IsLast seen [] result.stage }
    {
        Builder {
            scope,
            stage: Stage::Answer {
                slots: None,
                items: &[],
            },
        }
    }

    /// What stands for an expression, if it is a value.
    #[cycle(expr)]
    pub(crate) fn expr(&self, tree: &ExprTree) -> Result<Expr, OutOfMemory>
        ensures { (tables : List Table) (scope : Seen) (listed : List Selected) →
            Sees tables scope listed self.now.scope → IsStage scope listed self.now.stage →
            IfOk result (λ expr. expr ≡ built self.now.stage (reading tables scope tree.now)) }
    {
        match &tree.node {
            ExprNode::Number(number) => Ok(Expr::Literal(number_value(*number))),
            ExprNode::Text(text) => Ok(Expr::Literal(Value::Text(text.copy(self.scope.alloc)?))),
            ExprNode::Name { table, column } => self.name(table, column),
            ExprNode::Aggregate { call, argument } => match argument {
                None => self.slot(*call, None),
                Some(argument) => self.call(*call, argument.get()),
            },
            ExprNode::Negate(x) => Ok(Expr::Negate(self.boxed(x.get())?)),
            ExprNode::Add(x, y) => Ok(Expr::Add(self.boxed(x.get())?, self.boxed(y.get())?)),
            ExprNode::Subtract(x, y) => {
                Ok(Expr::Subtract(self.boxed(x.get())?, self.boxed(y.get())?))
            }
            ExprNode::Multiply(x, y) => {
                Ok(Expr::Multiply(self.boxed(x.get())?, self.boxed(y.get())?))
            }
            _ => Ok(no_expr()),
        }
    }

    #[cycle(expr)]
    fn boxed(&self, tree: &ExprTree) -> Result<Boxed<Expr>, OutOfMemory>
        ensures { (tables : List Table) (scope : Seen) (listed : List Selected) →
            Sees tables scope listed self.now.scope → IsStage scope listed self.now.stage →
            IfOk result (λ expr. expr ≡ built self.now.stage (reading tables scope tree.now)) }
    {
        let expr = self.expr(tree)?;
        Ok(Boxed::new(self.scope.alloc, expr)?)
    }

    /// A call of an aggregate with an argument, which is over rows.
    #[cycle(expr)]
    fn call(&self, call: AggregateCall, argument: &ExprTree) -> Result<Expr, OutOfMemory>
        ensures { (tables : List Table) (scope : Seen) (listed : List Selected) →
            Sees tables scope listed self.now.scope → IsStage scope listed self.now.stage →
            IfOk result (λ expr. expr ≡ built_call scope self.now.stage
            (aggregate_of call (Some (reading tables scope argument.now)))) }
    {
        let row = Builder::over_rows(self.scope).expr(argument)?;
        self.slot(call, Some(row))
    }

    /// A call of an aggregate.
    fn slot(&self, call: AggregateCall, argument: Option<Expr>) -> Result<Expr, OutOfMemory>
        ensures { (scope : Seen) (listed : List Selected) →
            IsStage scope listed self.now.stage →
            IfOk result (λ expr. expr ≡ built_call scope self.now.stage
            (record { call = call; argument = argument })) }
    {
        match self.stage {
            Stage::Answer {
                slots: Some(slots),
                ..
            } => slots.aggregate(&Aggregate { call, argument }),
            _ => Ok(no_expr()),
        }
    }

    /// What a name stands for.
    fn name(&self, table: &Option<Text>, name: &Text) -> Result<Expr, OutOfMemory>
        ensures { (tables : List Table) (scope : Seen) (listed : List Selected) (place : ℕ) →
            Sees tables scope listed self.now.scope → IsStage scope listed self.now.stage →
            IfOk result (λ expr. expr
            ≡ built self.now.stage (name_reading tables scope place table.now name.now)) }
    {
        match self.scope.meaning(table, name)? {
            Meaning::Column(column) => self.column(column),
            Meaning::Item(alias) => self.alias(&alias),
            Meaning::Wrong(_) => Ok(no_expr()),
        }
    }

    /// What stands for a column.
    pub(crate) fn column(&self, column: Column) -> Result<Expr, OutOfMemory>
        ensures { (tables : List Table) (scope : Seen) (listed : List Selected) (place : ℕ) →
            IsStage scope listed self.now.stage →
            IfOk result (λ expr. expr
            ≡ built self.now.stage (column_reading tables scope place column)) }
    {
        match self.stage {
            Stage::Answer {
                slots: Some(slots),
                ..
            } => slots.column(column),
            _ => Ok(Expr::Column {
                table: column.table,
                column: column.column,
            }),
        }
    }

    /// What stands for an alias: its item.
    fn alias(&self, alias: &Alias<'_>) -> Result<Expr, OutOfMemory>
        ensures { (scope : Seen) (listed : List Selected) (item : Reading) →
            IsAlias listed alias.now item → IsStage scope listed self.now.stage →
            IfOk result (λ expr. expr ≡ built self.now.stage item) }
    {
        match self.stage {
            Stage::Rows => copied(self.scope.alloc, alias.row),
            Stage::Answer { items, .. } => self.item(items, alias.item),
        }
    }

    /// What an item of the select list stands for.
    fn item(&self, items: &[Item], number: usize) -> Result<Expr, OutOfMemory>
        ensures { IfOk result (λ expr. expr ≡ value_or (slice_get items.now number)) }
    {
        match items.get(number) {
            None => Ok(no_expr()),
            Some(item) => copied(self.scope.alloc, &item.value),
        }
    }

    /// An item of ORDER BY, where a number alone is the position of a select item, counted from 1.
    pub(crate) fn ordered(&self, tree: &ExprTree) -> Result<Expr, OutOfMemory>
        ensures { (tables : List Table) (scope : Seen) (listed : List Selected) →
            Sees tables scope listed self.now.scope → IsLast scope listed self.now.stage →
            IfOk result (λ expr. expr ≡ (placed tables scope listed tree.now).expr) }
    {
        match &tree.node {
            ExprNode::Number(number) => self.positioned(*number),
            _ => self.expr(tree),
        }
    }

    /// What the select item at a position stands for.
    fn positioned(&self, number: i128) -> Result<Expr, OutOfMemory>
        ensures { (scope : Seen) (listed : List Selected) (place : ℕ) →
            IsLast scope listed self.now.stage →
            IfOk result (λ expr. expr ≡ (positioned place (item_at listed number)).expr) }
    {
        let Stage::Answer { items, .. } = self.stage else {
            return Ok(no_expr());
        };
        let index = position(number).unwrap_or(count(items));
        self.item(items, index)
    }
}

/// How many items there are.
fn count(items: &[Item]) -> usize
    ensures { result ≡ length items.now }
{
    items.len()
}

/// The number of the select item at a position that is counted from 1.
pub(crate) fn position(number: i128) -> Option<usize>
    ensures { (listed : List Selected) → length listed < 2 ^ 64 →
        option_and_then (slice_get listed) result ≡ item_at listed number }
{
    if number < 1 {
        return None;
    }
    usize::try_from(number - 1).ok()
}
