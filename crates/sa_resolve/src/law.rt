//! What is true of every SELECT over any tables. Each law is a function that does nothing: its
//! contract states the law, which its proof shows once and for all.

ghost use Rattle.std.specs.Prelude.{◌≡◌, ◌⊎◌, ◌<◌, ◌≤◌, List, length, All, false, None, IsSome};
ghost use Rattle.sa_ast.specs.declared.select.SelectTree.{SelectTree};
ghost use Rattle.sa_table.specs.Table.{Table};
ghost use Rattle.sa_query.specs.declared.item.Item.{Item};
ghost use Rattle.sa_query.specs.declared.query.Query.{Query};
ghost use Rattle.sa_query.specs.declared.query.TableUse.{TableUse};
ghost use Rattle.sa_query.specs.Meaning.{does_group};
ghost use Rattle.sa_query.specs.WellTyped.{IsFitCond, IsFitExpr, IsWellTyped};
ghost use Rattle.sa_resolve.specs.Fault.{least};
ghost use Rattle.sa_resolve.specs.Proper.{IsProperTree};
ghost use Rattle.sa_resolve.specs.Resolved.{IsQueryOf, faults_of, query_of};

/// A SELECT has a query or a fault that is told.
pub fn a_select_has_a_query_or_a_fault()
    ensures { (tables : List Table) (tree : SelectTree) →
        IsQueryOf tables tree (query_of tables tree) ⊎ IsSome (least (faults_of tables tree)) }
{}

/// It never has both.
pub fn a_select_with_a_query_has_no_fault()
    ensures { (tables : List Table) (tree : SelectTree) (query : Query) →
        IsQueryOf tables tree query → least (faults_of tables tree) ≡ None }
{}

/// It has one query at most.
pub fn a_select_has_one_query()
    ensures { (tables : List Table) (tree : SelectTree) (one other : Query) →
        IsQueryOf tables tree one → IsQueryOf tables tree other → one ≡ other }
{}

/// The query of a proper SELECT fits the tables.
pub fn the_query_of_a_select_is_well_typed()
    ensures { (tables : List Table) (tree : SelectTree) (query : Query) →
        IsProperTree tree → IsQueryOf tables tree query → IsWellTyped tables query }
{}

/// Whether a SELECT is proper or not, its query has at most eight tables, which are there, and its
/// filter fits. So does its select list where it doesn't group, and then the whole query does, if it
/// has a table.
pub fn a_filter_is_well_typed()
    ensures filter { (tables : List Table) (tree : SelectTree) (query : Query) →
        IsQueryOf tables tree query → IsFitCond tables query false query.filter }
    ensures select { (tables : List Table) (tree : SelectTree) (query : Query) →
        IsQueryOf tables tree query → does_group query ≡ false →
        All (λ (item : Item). IsFitExpr tables query false item.value) query.select }
    ensures rows { (tables : List Table) (tree : SelectTree) (query : Query) →
        IsQueryOf tables tree query → does_group query ≡ false → 1 ≤ length query.tables →
        IsWellTyped tables query }
    ensures there { (tables : List Table) (tree : SelectTree) (query : Query) →
        IsQueryOf tables tree query →
        All (λ (used : TableUse). used.table < length tables) query.tables }
    ensures few { (tables : List Table) (tree : SelectTree) (query : Query) →
        IsQueryOf tables tree query → length query.tables ≤ 8 }
{}
