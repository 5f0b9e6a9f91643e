//! What of a SELECT isn't built yet.

ghost use Rattle.std.specs.Prelude.{◌≡◌, ◌||◌, ◌==◌, ◌++◌, find, not, is_some, IfOk, OnOk};
ghost use Rattle.std.specs.List.{flat_map};
ghost use Rattle.std.specs.Option.{option_copied};
ghost use Rattle.sa_ast.specs.declared.select.GroupTree.{GroupTree as group_tree};
ghost use Rattle.sa_ast.specs.declared.select.ItemTree.{ItemTree as item_tree};
ghost use Rattle.sa_ast.specs.declared.select.OrderTree.{OrderTree as order_tree};
ghost use Rattle.sa_ast.specs.declared.select.TableTree.{TableTree as table_tree};
ghost use Rattle.sa_lexer.specs.declared.token.Token.{Token as token};
ghost use Rattle.sa_parser.specs.Token as words;
ghost use Rattle.sa_prepare.specs.Unbuilt as spec;

use crate::place::Places;
use sa_ast::{ExprTree, GroupTree, ItemNode, ItemTree, OrderTree, SelectTree, TableTree};
use sa_lexer::{Token, TokenKind};
use sa_value::OutOfMemory;
use std::alloc::Global;

/// The least place of what isn't built: DISTINCT, a second table, GROUP, HAVING, ORDER, LIMIT, or an
/// aggregate.
#[tactic(auto, unfolding(crate::specs::Unbuilt::unbuilt_places))]
pub(crate) fn unbuilt_place(
    alloc: Global,
    tokens: &[Token],
    tree: &SelectTree,
) -> Result<Option<usize>, OutOfMemory>
    ensures { IfOk result
        (λ place. place ≡ spec.least_place (spec.unbuilt_places tokens.now tree.now)) }
{
    let mut places = Places::new(alloc);
    places.word(tree.distinct, tokens, "DISTINCT")?;
    places.second_table(tree.from.as_slice())?;
    places.word(!tree.group.is_empty(), tokens, "GROUP")?;
    places.told(tree.having.is_some(), tree.having_place)?;
    places.word(!tree.order.is_empty(), tokens, "ORDER")?;
    places.word(is_cut(tree), tokens, "LIMIT")?;
    places.calls(tree)?;
    Ok(places.least())
}

/// Whether LIMIT is written.
fn is_cut(tree: &SelectTree) -> bool
    ensures { result ≡ (is_some tree.now.limit || not (tree.now.offset == 0)) }
{
    tree.limit.is_some() || tree.offset != 0
}

/// Where a word stands first.
fn word_place(tokens: &[Token], word: &str) -> usize
    ensures { result ≡ spec.word_place word.now tokens.now }
{
    match first_of(tokens, word) {
        Some(token) => token.start,
        None => 0,
    }
}

/// The first token that is this word.
fn first_of<'a>(tokens: &'a [Token], word: &str) -> Option<&'a Token>
    ensures { option_copied result ≡ find (λ (one : token). words.is_word word.now one.kind) tokens.now }
{
    tokens.iter().find(|token| is_word(token, word))
}

/// Whether a token is this word, in either case of its letters.
#[tactic(auto, unfolding(sa_parser::specs::Token::is_word))]
fn is_word(token: &Token, word: &str) -> bool
    ensures { result ≡ words.is_word word.now token.now.kind }
{
    match &token.kind {
        TokenKind::Word(written) => word.eq_ignore_ascii_case(written.as_str()),
        _ => false,
    }
}

impl Places {
    /// This place, where what is told there stands.
    fn told(&mut self, stands: bool, place: usize) -> Result<(), OutOfMemory>
        ensures { OnOk result (self.new ≡ self.old ++ spec.told_at stands place) }
    {
        if stands { self.push(place) } else { Ok(()) }
    }

    /// The first place of a word, where what it asks for stands.
    fn word(&mut self, stands: bool, tokens: &[Token], word: &str) -> Result<(), OutOfMemory>
        ensures { OnOk result
            (self.new ≡ self.old ++ spec.told_at stands (spec.word_place word.now tokens.now)) }
    {
        if stands {
            self.push(word_place(tokens, word))
        } else {
            Ok(())
        }
    }

    /// The name of the second table.
    fn second_table(&mut self, from: &[TableTree]) -> Result<(), OutOfMemory>
        ensures { OnOk result (self.new ≡ self.old ++ spec.second_table from.now) }
    {
        match from {
            [_, second, ..] => self.push(second.name.place),
            _ => Ok(()),
        }
    }

    /// The names of all aggregates.
    fn calls(&mut self, tree: &SelectTree) -> Result<(), OutOfMemory>
        ensures { OnOk result (self.new ≡ self.old ++ spec.all_calls tree.now) }
    {
        self.items(tree.items.as_slice())?;
        self.tables(tree.from.as_slice())?;
        self.option(&tree.filter)?;
        self.group(tree.group.as_slice())?;
        self.option(&tree.having)?;
        self.order(tree.order.as_slice())
    }

    /// Those in an expression that may be left out.
    fn option(&mut self, tree: &Option<ExprTree>) -> Result<(), OutOfMemory>
        ensures { OnOk result (self.new ≡ self.old ++ spec.calls_in_option tree.now) }
    {
        match tree {
            Some(tree) => self.expr(tree),
            None => Ok(()),
        }
    }

    /// Those in an item of the select list.
    fn item(&mut self, item: &ItemNode) -> Result<(), OutOfMemory>
        ensures { OnOk result (self.new ≡ self.old ++ spec.calls_in_item item.now) }
    {
        match item {
            ItemNode::Value { value, .. } => self.expr(value),
            _ => Ok(()),
        }
    }

    /// Those in the select list.
    fn items(&mut self, items: &[ItemTree]) -> Result<(), OutOfMemory>
        ensures { OnOk result (self.new ≡
            self.old ++ flat_map (λ (one : item_tree). spec.calls_in_item one.item) items.now) }
    {
        for one in items {
            self.item(&one.item)?;
        }
        Ok(())
    }

    /// Those in conditions of ON.
    fn tables(&mut self, tables: &[TableTree]) -> Result<(), OutOfMemory>
        ensures { OnOk result (self.new ≡
            self.old ++ flat_map (λ (one : table_tree). spec.calls_in_option one.on) tables.now) }
    {
        for one in tables {
            self.option(&one.on)?;
        }
        Ok(())
    }

    /// Those in GROUP BY.
    fn group(&mut self, items: &[GroupTree]) -> Result<(), OutOfMemory>
        ensures { OnOk result (self.new ≡
            self.old ++ flat_map (λ (one : group_tree). spec.calls_in one.value) items.now) }
    {
        for one in items {
            self.expr(&one.value)?;
        }
        Ok(())
    }

    /// Those in ORDER BY.
    fn order(&mut self, items: &[OrderTree]) -> Result<(), OutOfMemory>
        ensures { OnOk result (self.new ≡
            self.old ++ flat_map (λ (one : order_tree). spec.calls_in one.value) items.now) }
    {
        for one in items {
            self.expr(&one.value)?;
        }
        Ok(())
    }
}
