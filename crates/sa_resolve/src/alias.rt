ghost use Rattle.std.specs.Prelude.{◌≡◌, ℕ, List, IfOk, OnOk, unwrap_or, if◌then◌else◌, ◌++◌};
ghost use Rattle.std.specs.Str.{bytes_eq};
ghost use Rattle.indexmap.specs.IndexMap.{get_by};
ghost use Rattle.sa_ast.specs.declared.select.ItemTree.{ItemTree};
ghost use Rattle.sa_table.specs.Create.{same_name};
ghost use Rattle.sa_table.specs.Table.{Table};
ghost use Rattle.sa_resolve.specs.declared.sight.Lookup.TheVariants.{Nothing};
ghost use Rattle.sa_resolve.specs.declared.sight.Sight.{Sight};
ghost use Rattle.sa_resolve.specs.Expression.{Scope as Seen, Alias as Named};
ghost use Rattle.sa_resolve.specs.Selected.{aliases_of, selected, Selected, items_at};
ghost use Rattle.sa_resolve.specs.inner.Indexed.{with_alias};
ghost use Rattle.sa_resolve.specs.inner.Listing.{AreParts, IsPart, StandAt};
ghost use Rattle.sa_resolve.specs.inner.Names.{AreAliases};

use crate::facts::Facts;
use crate::select::{Chosen, Part};
use crate::sight::Lookup;
use indexmap::IndexMap;
use sa_cond::Expr;
use sa_value::OutOfMemory;
use std::alloc::Global;

/// What an alias of the select list stands for.
#[derive(Clone, Copy, Debug)]
pub(crate) struct Alias<'a> {
    pub(crate) facts: Facts,
    /// What it stands for over rows.
    pub(crate) row: &'a Expr,
    /// The select item's number, from 0.
    pub(crate) item: usize,
}

/// The aliases of a select list, by name.
#[derive(Drop)]
pub(crate) struct Aliases<'a> {
    names: IndexMap<&'a str, Lookup<Alias<'a>>>,
}

impl<'a> Aliases<'a> {
    /// The aliases of these parts of a select list.
    pub(crate) fn new(alloc: Global, parts: &'a [Part<'_>]) -> Result<Aliases<'a>, OutOfMemory>
        ensures { (tables : List Table) (scope : Seen) (sight : Sight) (trees : List ItemTree) →
            AreParts tables scope sight 0 parts.now trees →
            IfOk result (λ aliases. AreAliases (selected tables scope trees)
            (aliases_of (selected tables scope trees)) aliases) }
    {
        let mut aliases = Aliases {
            names: IndexMap::new(alloc),
        };
        for part in parts {
            aliases.put_part(part)?;
        }
        Ok(aliases)
    }

    /// The alias of a part, if it has one.
    fn put_part(&mut self, part: &'a Part<'_>) -> Result<(), OutOfMemory>
        ensures { (tables : List Table) (scope : Seen) (sight : Sight) (listed : List Selected)
            (kept : List Named) (first : ℕ) (tree : ItemTree) →
            IsPart tables scope sight first part.now tree →
            StandAt listed first (items_at tables scope tree.place tree.item) →
            AreAliases listed kept self.old →
            OnOk result (AreAliases listed
            (kept ++ aliases_of (items_at tables scope tree.place tree.item)) self.new) }
    {
        let Chosen::Value(value) = &part.chosen else {
            return Ok(());
        };
        let Some(name) = value.alias else {
            return Ok(());
        };
        self.put(
            name.name.as_str(),
            Alias {
                facts: value.looked.facts,
                row: &value.row,
                item: part.first,
            },
        )
    }

    /// One alias more.
    fn put(&mut self, name: &'a str, alias: Alias<'a>) -> Result<(), OutOfMemory>
        ensures { OnOk result ((other : List ℕ) →
            get_by (λ key. bytes_eq other key.now) self.new.names
            ≡ (if same_name name.now other
            then with_alias alias.entry (get_by (λ key. bytes_eq other key.now) self.old.names)
            else get_by (λ key. bytes_eq other key.now) self.old.names)) }
    {
        let found = match self.names.get(&name) {
            None => Lookup::One(alias),
            Some(_) => Lookup::Several,
        };
        self.names.insert(name, found)?;
        Ok(())
    }

    /// What this name stands for.
    pub(crate) fn get(&self, name: &str) -> Lookup<Alias<'a>>
        ensures { result
            ≡ unwrap_or (get_by (λ key. bytes_eq name.now key.now) self.now.names) Nothing }
    {
        match self.names.get(&name) {
            None => Lookup::Nothing,
            Some(found) => *found,
        }
    }
}
