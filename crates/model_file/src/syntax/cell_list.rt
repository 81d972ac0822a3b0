//! Reading and writing the cells of the given heap.

ghost use Rattle.std.specs.Prelude.{◌≡◌, [], map, OnOk};
ghost use Rattle.cyc_lex.specs.Writing.{write_all};
ghost use Rattle.cyc_grammar.specs.Syntax.{many, after, is_one, words_many, fits_many};
ghost use Rattle.cyc_grammar.specs.Giving.{Gives, with_front};
ghost use Rattle.heap_syntax.specs.Words.{comma};
ghost use Rattle.model_file.specs.Grammar.{cell, cells1, cells};
ghost use Rattle.model_file.specs.Trees.{cell_of};

use crate::syntax::numbers::{numbers, write_numbers};
use crate::syntax::tree::CellTree;
use cyc_basics::memory::OutOfMemory;
use cyc_grammar::{Cursor, Refusal};
use cyc_lex::WordWriter;
use std::alloc::Global;

#[tactic(auto, unfolding(crate::specs::Grammar::cell))]
fn cell(alloc: Global, cursor: &mut Cursor<'_, '_>) -> Result<CellTree, Refusal>
    ensures { Gives (λ x. (cell_of x, cursor.new)) result (cell.read cursor.old) }
{
    let address = cursor.number()?;
    cursor.symbol("->")?;
    cursor.symbol("(")?;
    let fields = numbers(alloc, ")", cursor)?;
    Ok(CellTree { address, fields })
}

/// Reads the cells after some.
fn more_cells(
    alloc: Global,
    mut items: Vec<CellTree>,
    cursor: &mut Cursor<'_, '_>,
) -> Result<Vec<CellTree>, Refusal>
    ensures { Gives (λ x. (map cell_of x.items, cursor.new)) result
        (with_front (map cell_of items.items) ((many (is_one comma) (after comma cell)).read cursor.old)) }
{
    for _ in 0..cursor.left() {
        if !cursor.is_symbol_next(",") {
            return Ok(items);
        }
        cursor.symbol(",")?;
        items.push(cell(alloc, cursor)?)?;
    }
    if cursor.is_symbol_next(",") {
        return Err(Refusal::Dead(cursor.left()));
    }
    Ok(items)
}

/// Reads the cells of the heap, of which there may be none, and the semicolon.
#[tactic(auto, unfolding(crate::specs::Grammar::cells, crate::specs::Grammar::cells1, heap_syntax::specs::Grammar::listed))]
pub fn cells(alloc: Global, cursor: &mut Cursor<'_, '_>) -> Result<Vec<CellTree>, Refusal>
    ensures { Gives (λ x. (map cell_of x.items, cursor.new)) result (cells.read cursor.old) }
{
    let mut items = Vec::new(alloc);
    if cursor.is_symbol_next(";") {
        cursor.symbol(";")?;
        return Ok(items);
    }
    items.push(cell(alloc, cursor)?)?;
    let items = more_cells(alloc, items, cursor)?;
    cursor.symbol(";")?;
    Ok(items)
}

#[tactic(auto, using(cyc_lex::proofs::WritingLaws::write_all_on), unfolding(crate::specs::Grammar::cell, cyc_lex::specs::Writing::write_all))]
fn write_cell(tree: &CellTree, writer: &mut WordWriter) -> Result<(), OutOfMemory>
    requires { cell.fits (cell_of tree.now) }
    ensures { OnOk result (writer.new ≡ write_all writer.old (cell.words (cell_of tree.now))) }
{
    writer.number(tree.address)?;
    writer.symbol("->")?;
    writer.symbol("(")?;
    write_numbers(")", &tree.fields, writer)
}

fn write_more_cells(trees: &[CellTree], writer: &mut WordWriter) -> Result<(), OutOfMemory>
    requires { fits_many (after comma cell) (map cell_of trees.now) }
    ensures { OnOk result (writer.new ≡ write_all writer.old (words_many (after comma cell) (map cell_of trees.now))) }
{
    for tree in trees {
        writer.symbol(",")?;
        write_cell(tree, writer)?;
    }
    Ok(())
}

/// Writes the cells of the heap and the semicolon.
#[tactic(auto, using(cyc_lex::proofs::WritingLaws::write_all_on), unfolding(crate::specs::Grammar::cells, crate::specs::Grammar::cells1, heap_syntax::specs::Grammar::listed, cyc_lex::specs::Writing::write_all))]
pub fn write_cells(trees: &[CellTree], writer: &mut WordWriter) -> Result<(), OutOfMemory>
    requires { cells.fits (map cell_of trees.now) }
    ensures { OnOk result (writer.new ≡ write_all writer.old (cells.words (map cell_of trees.now))) }
{
    match trees {
        [] => writer.symbol(";"),
        [first, others @ ..] => {
            write_cell(first, writer)?;
            write_more_cells(others, writer)?;
            writer.symbol(";")
        }
    }
}
