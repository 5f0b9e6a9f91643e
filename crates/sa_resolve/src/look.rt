ghost use Rattle.std.specs.Prelude.{◌≡◌, ◌||◌, ℕ, Bool, List, [], map, Some, None, IfOk};
ghost use Rattle.sa_ast.specs.declared.expression.ExprNode.{ExprNode-F};
ghost use Rattle.sa_table.specs.Table.{Table};
ghost use Rattle.sa_resolve.specs.declared.mentions.Mentions.{Mentions as Known};
ghost use Rattle.sa_resolve.specs.Expression.{Scope as Seen, name_reading, node_reading, reading};
ghost use Rattle.sa_resolve.specs.Fault as fault;
ghost use Rattle.sa_resolve.specs.Reading.{Reading, condition};
ghost use Rattle.sa_resolve.specs.Selected.{Selected};
ghost use Rattle.sa_resolve.specs.inner.Gist.{gist_at, no_parts, node_gist, with_value};
ghost use Rattle.sa_resolve.specs.inner.Kind.{kind_at, kind_in, kinds_clash};
ghost use Rattle.sa_resolve.specs.inner.Looking.{HasLooked, LooksUp};
ghost use Rattle.sa_resolve.specs.inner.Names.{Sees};
ghost use Rattle.sa_resolve.specs.inner.Walking.{IsArithmetic, IsLiteral, IsTest};

use crate::build::Builder;
use crate::facts::{Facts, Parts};
use crate::kind::Kind;
use crate::mentions::{Loose, Mentions};
use crate::reach::Operation;
use crate::scope::{Meaning, Scope};
use sa_ast::{AggregateCall, ExprNode, ExprTree};
use sa_query::{Aggregate, ResolveKind};
use sa_value::{OutOfMemory, Text};
use std::alloc::Global;

/// A whole expression: what is known of it, and what it mentions.
#[derive(Debug, Drop)]
pub(crate) struct Looked {
    pub(crate) facts: Facts,
    /// The columns outside aggregates.
    pub(crate) loose: Vec<Loose>,
    /// The places of its literals.
    pub(crate) literals: Vec<usize>,
}

impl Looked {
    /// A name or a position that stands for a select item.
    pub(crate) fn name(alloc: Global, facts: Facts) -> Looked
        ensures facts { result.facts ≡ facts }
        ensures loose { result.loose.items ≡ [] }
        ensures literals { result.literals.items ≡ [] }
    {
        Looked {
            facts,
            loose: Vec::new(alloc),
            literals: Vec::new(alloc),
        }
    }
}

impl Scope<'_, '_, '_> {
    /// What a whole expression is. Its aggregates are put to the end of `aggregates`.
    pub(crate) fn look(
        &self,
        tree: &ExprTree,
        aggregates: &mut Vec<Aggregate>,
    ) -> Result<Looked, OutOfMemory>
        ensures { (tables : List Table) (scope : Seen) (listed : List Selected) →
            Sees tables scope listed self.now →
            IfOk result (λ looked. LooksUp aggregates.old.items aggregates.new.items looked
            (reading tables scope tree.now)) }
    {
        let mut mentions = Mentions::new(self.alloc);
        let facts = self.look_at(tree, &mut mentions)?;
        let Mentions {
            loose,
            aggregates: mut more,
            literals,
        } = mentions;
        aggregates.append(&mut more)?;
        Ok(Looked {
            facts,
            loose,
            literals,
        })
    }

    /// What is known of an expression. What it mentions is put to the end of `mentions`.
    #[cycle(look)]
    fn look_at(&self, tree: &ExprTree, mentions: &mut Mentions) -> Result<Facts, OutOfMemory>
        ensures { (tables : List Table) (scope : Seen) (listed : List Selected) →
            Sees tables scope listed self.now →
            IfOk result (λ facts. HasLooked mentions.old mentions.new facts
            (reading tables scope tree.now)) }
    {
        let place = tree.place;
        match &tree.node {
            ExprNode::Number(number) => look_at_number(place, *number, mentions),
            ExprNode::Text(_) => literal(place, Kind::Text, mentions),
            ExprNode::Null => literal(place, Kind::Null, mentions),
            ExprNode::Known(_) => Ok(Facts::condition(place)),
            ExprNode::Name { table, column } => self.look_at_name(place, table, column, mentions),
            ExprNode::Aggregate { call, argument } => match argument {
                None => look_at_rows(place, *call, mentions),
                Some(argument) => self.look_at_call(place, *call, argument.get(), mentions),
            },
            ExprNode::Negate(_)
            | ExprNode::Add(_, _)
            | ExprNode::Subtract(_, _)
            | ExprNode::Multiply(_, _) => self.look_at_sum(tree, mentions),
            ExprNode::And(members) => self.look_at_members(place, members.as_slice(), mentions),
            ExprNode::Or(members) => self.look_at_members(place, members.as_slice(), mentions),
            ExprNode::Not(x) => {
                let x = self.look_at(x.get(), mentions)?;
                Ok(Facts::test(place, Parts::none().with_condition(&x), false))
            }
            ExprNode::Compare { .. }
            | ExprNode::Between { .. }
            | ExprNode::Among { .. }
            | ExprNode::IsNull { .. } => self.look_at_test(tree, mentions),
        }
    }

    /// Arithmetic.
    #[cycle(look)]
    fn look_at_sum(&self, tree: &ExprTree, mentions: &mut Mentions) -> Result<Facts, OutOfMemory>
        requires { IsArithmetic tree.now.node }
        ensures { (tables : List Table) (scope : Seen) (listed : List Selected) →
            Sees tables scope listed self.now →
            IfOk result (λ facts. HasLooked mentions.old mentions.new facts
            (reading tables scope tree.now)) }
    {
        let place = tree.place;
        match &tree.node {
            ExprNode::Negate(x) => {
                let x = self.look_at(x.get(), mentions)?;
                Ok(Facts::negation(place, &x))
            }
            ExprNode::Add(x, y) => {
                let x = self.look_at(x.get(), mentions)?;
                let y = self.look_at(y.get(), mentions)?;
                Ok(Facts::operation(place, Operation::Add, &x, &y))
            }
            ExprNode::Subtract(x, y) => {
                let x = self.look_at(x.get(), mentions)?;
                let y = self.look_at(y.get(), mentions)?;
                Ok(Facts::operation(place, Operation::Subtract, &x, &y))
            }
            ExprNode::Multiply(x, y) => {
                let x = self.look_at(x.get(), mentions)?;
                let y = self.look_at(y.get(), mentions)?;
                Ok(Facts::operation(place, Operation::Multiply, &x, &y))
            }
            _ => unreachable!(),
        }
    }

    /// A comparison, a BETWEEN, an IN or an IS NULL.
    #[cycle(look)]
    fn look_at_test(&self, tree: &ExprTree, mentions: &mut Mentions) -> Result<Facts, OutOfMemory>
        requires { IsTest tree.now.node }
        ensures { (tables : List Table) (scope : Seen) (listed : List Selected) →
            Sees tables scope listed self.now →
            IfOk result (λ facts. HasLooked mentions.old mentions.new facts
            (reading tables scope tree.now)) }
    {
        let place = tree.place;
        match &tree.node {
            ExprNode::Compare { left, right, .. } => {
                let x = self.look_at(left.get(), mentions)?;
                let y = self.look_at(right.get(), mentions)?;
                let parts = Parts::none().with_value(&x).with_value(&y);
                Ok(Facts::test(place, parts, x.clashes(&y)))
            }
            ExprNode::Between {
                value,
                low,
                high,
                ..
            } => {
                let x = self.look_at(value.get(), mentions)?;
                let low = self.look_at(low.get(), mentions)?;
                let high = self.look_at(high.get(), mentions)?;
                Ok(between(place, &x, &low, &high))
            }
            ExprNode::Among { value, list, .. } => {
                let x = self.look_at(value.get(), mentions)?;
                self.look_at_list(place, &x, list.as_slice(), mentions)
            }
            ExprNode::IsNull { value, .. } => {
                let x = self.look_at(value.get(), mentions)?;
                Ok(Facts::test(place, Parts::none().with_value(&x), false))
            }
            _ => unreachable!(),
        }
    }

    /// The members of AND or OR.
    #[cycle(look)]
    fn look_at_members(
        &self,
        place: usize,
        members: &[ExprTree],
        mentions: &mut Mentions,
    ) -> Result<Facts, OutOfMemory>
        ensures { (tables : List Table) (scope : Seen) (listed : List Selected) →
            Sees tables scope listed self.now →
            IfOk result (λ facts. HasLooked mentions.old mentions.new facts (node_reading tables scope
            (ExprNode-F.And (map (reading tables scope) members.now)) place)) }
    {
        let mut parts = Parts::none();
        for member in members {
            parts = parts.with_condition(&self.look_at(member, mentions)?);
        }
        Ok(Facts::test(place, parts, false))
    }

    /// The list that a value is sought in.
    #[cycle(look)]
    fn look_at_list(
        &self,
        place: usize,
        x: &Facts,
        list: &[ExprTree],
        mentions: &mut Mentions,
    ) -> Result<Facts, OutOfMemory>
        ensures { (tables : List Table) (scope : Seen) (listed : List Selected) (before : Known)
            (one : Reading) (negated : Bool) →
            Sees tables scope listed self.now → HasLooked before mentions.old x.now one →
            IfOk result (λ facts. HasLooked before mentions.new facts (node_reading tables scope
            (ExprNode-F.Among one (map (reading tables scope) list.now) negated) place)) }
    {
        let mut parts = Parts::none().with_value(x);
        let mut clashes = false;
        for member in list {
            let y = self.look_at(member, mentions)?;
            parts = parts.with_value(&y);
            clashes |= x.clashes(&y);
        }
        Ok(Facts::test(place, parts, clashes))
    }

    /// A call of an aggregate. Of what its argument mentions only the literals count.
    #[cycle(look)]
    fn look_at_call(
        &self,
        place: usize,
        call: AggregateCall,
        argument: &ExprTree,
        mentions: &mut Mentions,
    ) -> Result<Facts, OutOfMemory>
        ensures { (tables : List Table) (scope : Seen) (listed : List Selected) →
            Sees tables scope listed self.now →
            IfOk result (λ facts. HasLooked mentions.old mentions.new facts (node_reading tables scope
            (ExprNode-F.Aggregate call (Some (reading tables scope argument.now))) place)) }
    {
        let mut inner = Mentions::new(self.alloc);
        let x = self.look_at(argument, &mut inner)?;
        mentions.literals.append(&mut inner.literals)?;
        let row = Builder::over_rows(*self).expr(argument)?;
        mentions.aggregates.push(Aggregate {
            call,
            argument: Some(row),
        })?;
        Ok(Facts::call(place, call, &x))
    }

    /// A name.
    fn look_at_name(
        &self,
        place: usize,
        table: &Option<Text>,
        name: &Text,
        mentions: &mut Mentions,
    ) -> Result<Facts, OutOfMemory>
        ensures { (tables : List Table) (scope : Seen) (listed : List Selected) →
            Sees tables scope listed self.now →
            IfOk result (λ facts. HasLooked mentions.old mentions.new facts
            (name_reading tables scope place table.now name.now)) }
    {
        match self.meaning(table, name)? {
            Meaning::Column(column) => {
                mentions.loose.push(Loose { place, column })?;
                Ok(Facts::column(place, column, self.sight.kind(column)))
            }
            Meaning::Item(alias) => Ok(alias.facts.named(place)),
            Meaning::Wrong(kind) => Ok(Facts::wrong(place, kind)),
        }
    }
}

/// A BETWEEN of these.
fn between(place: usize, x: &Facts, low: &Facts, high: &Facts) -> Facts
    ensures { let one = gist_at x.now in let two = gist_at low.now in let three = gist_at high.now in
        gist_at result ≡ node_gist place condition
        (with_value (with_value (with_value no_parts one) two) three)
        (fault.least (fault.told (kinds_clash (kind_in one.sort) (kind_in two.sort)
        || kinds_clash (kind_in one.sort) (kind_in three.sort)) ResolveKind.TypeMismatch place)) }
{
    let parts = Parts::none().with_value(x).with_value(low).with_value(high);
    Facts::test(place, parts, x.clashes(low) || x.clashes(high))
}

/// A number.
fn look_at_number(place: usize, number: i128, mentions: &mut Mentions) -> Result<Facts, OutOfMemory>
    ensures { (tables : List Table) (scope : Seen) →
        IfOk result (λ facts. HasLooked mentions.old mentions.new facts
        (node_reading tables scope (ExprNode-F.Number number) place)) }
{
    mentions.literals.push(place)?;
    Ok(Facts::number(place, number))
}

/// A literal of this kind.
fn literal(place: usize, kind: Kind, mentions: &mut Mentions) -> Result<Facts, OutOfMemory>
    ensures { (tables : List Table) (scope : Seen) (node : ExprNode-F (ℕ → Reading) Reading) →
        IsLiteral (kind_at kind) node →
        IfOk result (λ facts. HasLooked mentions.old mentions.new facts
        (node_reading tables scope node place)) }
{
    mentions.literals.push(place)?;
    Ok(Facts::value(place, kind))
}

/// `COUNT(*)`
fn look_at_rows(
    place: usize,
    call: AggregateCall,
    mentions: &mut Mentions,
) -> Result<Facts, OutOfMemory>
    ensures { (tables : List Table) (scope : Seen) →
        IfOk result (λ facts. HasLooked mentions.old mentions.new facts
        (node_reading tables scope (ExprNode-F.Aggregate call None) place)) }
{
    mentions.aggregates.push(Aggregate {
        call,
        argument: None,
    })?;
    Ok(Facts::call_of_rows(place, call))
}
