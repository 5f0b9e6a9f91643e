ghost use Rattle.std.specs.Prelude.{◌≡◌, ◌+◌, ◌<◌, ◌^◌, ℕ, List, IfOk, option_map};
ghost use Rattle.sa_query.specs.declared.refusal.ResolveKind.TheVariants.{UnknownColumn};
ghost use Rattle.sa_table.specs.Table.{Table};
ghost use Rattle.sa_resolve.specs.declared.sight.Sight.{Sight};
ghost use Rattle.sa_resolve.specs.Expression.{Alias as AliasOf, Scope as Seen, by_alias, by_column, name_reading, plain_reading, unless_none};
ghost use Rattle.sa_resolve.specs.Reading.{faulty_name};
ghost use Rattle.sa_resolve.specs.Selected.{Selected};
ghost use Rattle.sa_resolve.specs.Sight.{Found};
ghost use Rattle.sa_resolve.specs.inner.Indexed.{found_in, HasKind, IsMeant};
ghost use Rattle.sa_resolve.specs.inner.Meanings.{Stands};
ghost use Rattle.sa_resolve.specs.inner.Names.{Sees};

use crate::alias::{Alias, Aliases};
use crate::sight::{Lookup, Sight};
use sa_query::{Column, ResolveKind};
use sa_value::{OutOfMemory, Text};
use std::alloc::Global;

/// When a plain name is sought among the aliases of select items.
#[derive(Clone, Copy)]
pub(crate) enum Seeks<'a, 's> {
    Never,
    First(&'a Aliases<'s>),
    Last(&'a Aliases<'s>),
}

/// What a part of a SELECT sees.
#[derive(Clone, Copy)]
pub(crate) struct Scope<'a, 's, 't> {
    /// What is made takes memory from here.
    pub(crate) alloc: Global,
    pub(crate) sight: &'a Sight<'t>,
    /// How many tables of FROM are in sight.
    pub(crate) count: usize,
    pub(crate) seeks: Seeks<'a, 's>,
}

/// What a name stands for.
#[derive(Clone, Copy)]
pub(crate) enum Meaning<'a> {
    Column(Column),
    Item(Alias<'a>),
    /// Nothing, which is a fault of this kind.
    Wrong(ResolveKind),
}

impl<'a, 's, 't> Scope<'a, 's, 't> {
    /// What the ON of the table at this position sees: the tables up to its own.
    pub(crate) fn up_to(&self, number: usize) -> Scope<'a, 's, 't>
        ensures { number + 1 < 2 ^ 64 → result ≡ record self.now { count = number + 1 } }
    {
        Scope {
            count: number.saturating_add(1),
            ..*self
        }
    }

    /// What a name stands for.
    pub(crate) fn meaning(
        &self,
        table: &Option<Text>,
        name: &Text,
    ) -> Result<Meaning<'s>, OutOfMemory>
        ensures { (tables : List Table) (scope : Seen) (listed : List Selected) (place : ℕ) →
            Sees tables scope listed self.now →
            IfOk result (λ meaning. Stands tables scope listed self.now.sight.now place meaning
            (name_reading tables scope place table.now name.now)) }
    {
        match table {
            None => Ok(self.plain(name.as_str())),
            Some(alias) => {
                let found = self
                    .sight
                    .qualified(self.count, alias.as_str(), name.as_str())?;
                Ok(column_meaning(found))
            }
        }
    }

    /// What a name without a table stands for.
    fn plain(&self, name: &str) -> Meaning<'s>
        ensures { (tables : List Table) (scope : Seen) (listed : List Selected) (place : ℕ) →
            Sees tables scope listed self.now →
            Stands tables scope listed self.now.sight.now place result
            (plain_reading tables scope scope.seeks place name.now) }
    {
        let found = self.sight.plain(self.count, name);
        match self.seeks {
            Seeks::Never => column_meaning(found),
            Seeks::First(aliases) => alias_first(aliases.get(name), found),
            Seeks::Last(aliases) => alias_last(found, aliases.get(name)),
        }
    }
}

/// What is found among the aliases, or else among the columns.
fn alias_first<'a>(alias: Lookup<Alias<'a>>, column: Lookup<Column>) -> Meaning<'a>
    ensures { (tables : List Table) (scope : Seen) (listed : List Selected) (sight : Sight) (place : ℕ)
        (known : Found AliasOf) → HasKind tables scope sight column → IsMeant listed alias.entry known →
        Stands tables scope listed sight place result
        (by_alias tables scope place (by_column tables scope place (found_in column)) known) }
{
    match alias {
        Lookup::Nothing => column_meaning(column),
        alias => alias_meaning(alias),
    }
}

/// What is found among the columns, or else among the aliases.
fn alias_last<'a>(column: Lookup<Column>, alias: Lookup<Alias<'a>>) -> Meaning<'a>
    ensures { (tables : List Table) (scope : Seen) (listed : List Selected) (sight : Sight) (place : ℕ)
        (known : Found AliasOf) → HasKind tables scope sight column → IsMeant listed alias.entry known →
        Stands tables scope listed sight place result
        (unless_none tables scope place
        (by_alias tables scope place (faulty_name UnknownColumn place) known) (found_in column)) }
{
    match column {
        Lookup::Nothing => alias_meaning(alias),
        column => column_meaning(column),
    }
}

fn column_meaning<'a>(found: Lookup<Column>) -> Meaning<'a>
    ensures { (tables : List Table) (scope : Seen) (listed : List Selected) (sight : Sight) (place : ℕ) →
        HasKind tables scope sight found → Stands tables scope listed sight place result
        (by_column tables scope place (found_in found)) }
{
    match found {
        Lookup::One(column) => Meaning::Column(column),
        Lookup::Nothing => Meaning::Wrong(ResolveKind::UnknownColumn),
        Lookup::Several => Meaning::Wrong(ResolveKind::Ambiguous),
    }
}

fn alias_meaning(found: Lookup<Alias<'_>>) -> Meaning<'_>
    ensures { (tables : List Table) (scope : Seen) (listed : List Selected) (sight : Sight) (place : ℕ)
        (known : Found AliasOf) → IsMeant listed found.entry known →
        Stands tables scope listed sight place result
        (by_alias tables scope place (faulty_name UnknownColumn place) known) }
{
    match found {
        Lookup::One(alias) => Meaning::Item(alias),
        Lookup::Nothing => Meaning::Wrong(ResolveKind::UnknownColumn),
        Lookup::Several => Meaning::Wrong(ResolveKind::Ambiguous),
    }
}
