//! Numbers, cells, picks and pairs of values, and the lists of them that a run file has.

ghost use Rattle.std.specs.Prelude.{◌≡◌, map, OnOk};
ghost use Rattle.cyc_lex.specs.Writing.{write_all};
ghost use Rattle.cyc_grammar.specs.Classes.{symbol};
ghost use Rattle.cyc_grammar.specs.Giving.{Gives};
ghost use Rattle.model_file.specs.Grammar.{numbers, values, cell, cells};
ghost use Rattle.model_file.specs.Trees.{cell_of};
ghost use Rattle.run_file.specs.Grammar.{pick, picks, value_pair, value_pairs};
ghost use Rattle.run_file.specs.Trees.{pick_of};

use crate::lists::{Item, listed, listed_or_none, write_listed, write_listed_or_none};
use crate::tree::PickTree;
use cyc_basics::memory::OutOfMemory;
use cyc_grammar::{Cursor, Refusal};
use cyc_lex::WordWriter;
use general_models::runs::ValuePair;
use model_file::syntax::CellTree;
use std::alloc::Global;

/// Numbers.
#[derive(Clone, Copy)]
struct NumberItem;

impl Item for NumberItem {
    ghost use Rattle.std.specs.Prelude.{ℕ};
    ghost use Rattle.cyc_grammar.specs.Syntax.{one};
    ghost use Rattle.cyc_grammar.specs.Classes.{number};

    type Tree = u32;

    ghost Value = { ℕ };

    ghost seen = { λ n. n };

    ghost some = { λ _. 0 };

    ghost syntax = { λ _. one number };

    fn read_item(&self, _alloc: Global, cursor: &mut Cursor<'_, '_>) -> Result<u32, Refusal> {
        cursor.number()
    }

    #[tactic(auto, unfolding(cyc_lex::specs::Writing::write_all))]
    fn write_item(&self, tree: &u32, writer: &mut WordWriter) -> Result<(), OutOfMemory> {
        writer.number(*tree)
    }
}

/// Reads one number or more, and the symbol after the last.
#[tactic(auto, unfolding(model_file::specs::Grammar::numbers))]
fn numbers(alloc: Global, behind: &str, cursor: &mut Cursor<'_, '_>) -> Result<Vec<u32>, Refusal>
    ensures { Gives (λ x. (x.items, cursor.new)) result ((numbers (symbol behind.now)).read cursor.old) }
{
    listed(alloc, behind, &NumberItem, cursor)
}

/// Reads the values of the stack, of which there may be none, and the semicolon.
#[tactic(auto, unfolding(model_file::specs::Grammar::values, model_file::specs::Grammar::numbers))]
pub fn values(alloc: Global, cursor: &mut Cursor<'_, '_>) -> Result<Vec<u32>, Refusal>
    ensures { Gives (λ x. (x.items, cursor.new)) result (values.read cursor.old) }
{
    listed_or_none(alloc, &NumberItem, cursor)
}

/// Writes one number or more, and the symbol after the last.
#[tactic(auto, unfolding(model_file::specs::Grammar::numbers))]
fn write_numbers(behind: &str, trees: &[u32], writer: &mut WordWriter) -> Result<(), OutOfMemory>
    requires { (numbers (symbol behind.now)).fits trees.now }
    ensures { OnOk result (writer.new ≡ write_all writer.old ((numbers (symbol behind.now)).words trees.now)) }
{
    write_listed(behind, &NumberItem, trees, writer)
}

/// Writes the values of the stack and the semicolon.
#[tactic(auto, unfolding(model_file::specs::Grammar::values, model_file::specs::Grammar::numbers))]
pub fn write_values(trees: &[u32], writer: &mut WordWriter) -> Result<(), OutOfMemory>
    requires { values.fits trees.now }
    ensures { OnOk result (writer.new ≡ write_all writer.old (values.words trees.now)) }
{
    write_listed_or_none(&NumberItem, trees, writer)
}

#[tactic(auto, unfolding(model_file::specs::Grammar::cell))]
fn cell(alloc: Global, cursor: &mut Cursor<'_, '_>) -> Result<CellTree, Refusal>
    ensures { Gives (λ x. (cell_of x, cursor.new)) result (cell.read cursor.old) }
{
    let address = cursor.number()?;
    cursor.symbol("->")?;
    cursor.symbol("(")?;
    let fields = numbers(alloc, ")", cursor)?;
    Ok(CellTree { address, fields })
}

#[tactic(auto, unfolding(model_file::specs::Grammar::cell, cyc_lex::specs::Writing::write_all))]
fn write_cell(tree: &CellTree, writer: &mut WordWriter) -> Result<(), OutOfMemory>
    requires { cell.fits (cell_of tree.now) }
    ensures { OnOk result (writer.new ≡ write_all writer.old (cell.words (cell_of tree.now))) }
{
    writer.number(tree.address)?;
    writer.symbol("->")?;
    writer.symbol("(")?;
    write_numbers(")", &tree.fields, writer)
}

/// The cells of a heap.
#[derive(Clone, Copy)]
struct CellItem;

impl Item for CellItem {
    ghost use Rattle.model_file.specs.Trees.{Cell, cell_of};
    ghost use Rattle.model_file.specs.Grammar as grammar;

    type Tree = CellTree;

    ghost Value = { Cell };

    ghost seen = { cell_of };

    ghost some = { λ _. grammar.some_cell };

    ghost syntax = { λ _. grammar.cell };

    fn read_item(&self, alloc: Global, cursor: &mut Cursor<'_, '_>) -> Result<CellTree, Refusal> {
        cell(alloc, cursor)
    }

    fn write_item(&self, tree: &CellTree, writer: &mut WordWriter) -> Result<(), OutOfMemory> {
        write_cell(tree, writer)
    }
}

/// Reads the cells of the heap, of which there may be none, and the semicolon.
#[tactic(auto, unfolding(model_file::specs::Grammar::cells, model_file::specs::Grammar::cells1))]
pub fn cells(alloc: Global, cursor: &mut Cursor<'_, '_>) -> Result<Vec<CellTree>, Refusal>
    ensures { Gives (λ x. (map cell_of x.items, cursor.new)) result (cells.read cursor.old) }
{
    listed_or_none(alloc, &CellItem, cursor)
}

/// Writes the cells of the heap and the semicolon.
#[tactic(auto, unfolding(model_file::specs::Grammar::cells, model_file::specs::Grammar::cells1))]
pub fn write_cells(trees: &[CellTree], writer: &mut WordWriter) -> Result<(), OutOfMemory>
    requires { cells.fits (map cell_of trees.now) }
    ensures { OnOk result (writer.new ≡ write_all writer.old (cells.words (map cell_of trees.now))) }
{
    write_listed_or_none(&CellItem, trees, writer)
}

#[tactic(auto, unfolding(crate::specs::Grammar::pick))]
fn pick(alloc: Global, cursor: &mut Cursor<'_, '_>) -> Result<PickTree, Refusal>
    ensures { Gives (λ x. (pick_of x, cursor.new)) result (pick.read cursor.old) }
{
    if cursor.is_number_next() {
        return Ok(PickTree::Cell(cell(alloc, cursor)?));
    }
    if cursor.is_keyword_next("jump") {
        cursor.keyword("jump")?;
        return Ok(PickTree::Jumps(true));
    }
    cursor.keyword("next")?;
    Ok(PickTree::Jumps(false))
}

#[tactic(auto, unfolding(crate::specs::Grammar::pick, cyc_lex::specs::Writing::write_all))]
fn write_pick(tree: &PickTree, writer: &mut WordWriter) -> Result<(), OutOfMemory>
    requires { pick.fits (pick_of tree.now) }
    ensures { OnOk result (writer.new ≡ write_all writer.old (pick.words (pick_of tree.now))) }
{
    match tree {
        PickTree::Cell(cell) => write_cell(cell, writer),
        PickTree::Jumps(true) => writer.name("jump"),
        PickTree::Jumps(false) => writer.name("next"),
    }
}

/// What a run picks.
#[derive(Clone, Copy)]
struct PickItem;

impl Item for PickItem {
    ghost use Rattle.general_models.specs.declared.runs.picks.Pick.{Pick};
    ghost use Rattle.run_file.specs.Trees.{pick_of};
    ghost use Rattle.run_file.specs.Grammar as grammar;

    type Tree = PickTree;

    ghost Value = { Pick };

    ghost seen = { pick_of };

    ghost some = { λ _. grammar.some_pick };

    ghost syntax = { λ _. grammar.pick };

    fn read_item(&self, alloc: Global, cursor: &mut Cursor<'_, '_>) -> Result<PickTree, Refusal> {
        pick(alloc, cursor)
    }

    fn write_item(&self, tree: &PickTree, writer: &mut WordWriter) -> Result<(), OutOfMemory> {
        write_pick(tree, writer)
    }
}

/// Reads the picks, of which there may be none, and the semicolon.
#[tactic(auto, unfolding(crate::specs::Grammar::picks, crate::specs::Grammar::picks1))]
pub fn picks(alloc: Global, cursor: &mut Cursor<'_, '_>) -> Result<Vec<PickTree>, Refusal>
    ensures { Gives (λ x. (map pick_of x.items, cursor.new)) result (picks.read cursor.old) }
{
    listed_or_none(alloc, &PickItem, cursor)
}

/// Writes the picks and the semicolon.
#[tactic(auto, unfolding(crate::specs::Grammar::picks, crate::specs::Grammar::picks1))]
pub fn write_picks(trees: &[PickTree], writer: &mut WordWriter) -> Result<(), OutOfMemory>
    requires { picks.fits (map pick_of trees.now) }
    ensures { OnOk result (writer.new ≡ write_all writer.old (picks.words (map pick_of trees.now))) }
{
    write_listed_or_none(&PickItem, trees, writer)
}

#[tactic(auto, unfolding(crate::specs::Grammar::value_pair))]
fn value_pair(cursor: &mut Cursor<'_, '_>) -> Result<ValuePair, Refusal>
    ensures { Gives (λ x. (x, cursor.new)) result (value_pair.read cursor.old) }
{
    let before = cursor.number()?;
    let after = cursor.number()?;
    Ok(ValuePair { before, after })
}

#[tactic(auto, unfolding(crate::specs::Grammar::value_pair, cyc_lex::specs::Writing::write_all))]
fn write_value_pair(pair: ValuePair, writer: &mut WordWriter) -> Result<(), OutOfMemory>
    requires { value_pair.fits pair }
    ensures { OnOk result (writer.new ≡ write_all writer.old (value_pair.words pair)) }
{
    writer.number(pair.before)?;
    writer.number(pair.after)
}

/// Pairs of values.
#[derive(Clone, Copy)]
struct PairItem;

impl Item for PairItem {
    ghost use Rattle.general_models.specs.declared.runs.growth.ValuePair as growth;
    ghost use Rattle.run_file.specs.Grammar as grammar;

    type Tree = ValuePair;

    ghost Value = { growth.ValuePair };

    ghost seen = { λ p. p };

    ghost some = { λ _. grammar.some_pair };

    ghost syntax = { λ _. grammar.value_pair };

    fn read_item(&self, _alloc: Global, cursor: &mut Cursor<'_, '_>) -> Result<ValuePair, Refusal> {
        value_pair(cursor)
    }

    fn write_item(&self, tree: &ValuePair, writer: &mut WordWriter) -> Result<(), OutOfMemory> {
        write_value_pair(*tree, writer)
    }
}

/// Reads one pair or more, and the parenthesis.
#[tactic(auto, unfolding(crate::specs::Grammar::value_pairs))]
pub fn value_pairs(alloc: Global, cursor: &mut Cursor<'_, '_>) -> Result<Vec<ValuePair>, Refusal>
    ensures { Gives (λ x. (x.items, cursor.new)) result (value_pairs.read cursor.old) }
{
    listed(alloc, ")", &PairItem, cursor)
}

/// Writes one pair or more, and the parenthesis.
#[tactic(auto, unfolding(crate::specs::Grammar::value_pairs))]
pub fn write_value_pairs(pairs: &[ValuePair], writer: &mut WordWriter) -> Result<(), OutOfMemory>
    requires { value_pairs.fits pairs.now }
    ensures { OnOk result (writer.new ≡ write_all writer.old (value_pairs.words pairs.now)) }
{
    write_listed(")", &PairItem, pairs, writer)
}
