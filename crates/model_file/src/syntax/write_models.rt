//! Writing whole model files.

ghost use Rattle.std.specs.Prelude.{◌≡◌, map, OnOk, IfOk};
ghost use Rattle.cyc_lex.specs.Spacing.{text_of};
ghost use Rattle.cyc_lex.specs.Spelling.{Spells};
ghost use Rattle.cyc_lex.specs.Writing.{write_all};
ghost use Rattle.heap_syntax.specs.DefinitionTrees.{heap_of};
ghost use Rattle.model_file.specs.Grammar.{question, state, body, model};
ghost use Rattle.model_file.specs.Trees.{cell_of, model_of};

use crate::syntax::cell_list::write_cells;
use crate::syntax::numbers::write_values;
use crate::syntax::tree::{CellTree, ModelTree};
use crate::version::write_model_version;
use cyc_basics::memory::OutOfMemory;
use cyc_lex::WordWriter;
use heap_syntax::definitions::HeapTree;
use heap_syntax::writing::{write_definitions, write_heap};
use std::alloc::Global;

#[tactic(auto, using(cyc_lex::proofs::WritingLaws::write_all_on), unfolding(crate::specs::Grammar::state, cyc_lex::specs::Writing::write_all))]
fn write_state(
    stack: &[u32],
    cells: &[CellTree],
    writer: &mut WordWriter,
) -> Result<(), OutOfMemory>
    requires { state.fits (stack.now, map cell_of cells.now) }
    ensures { OnOk result (writer.new ≡ write_all writer.old (state.words (stack.now, map cell_of cells.now))) }
{
    writer.name("stack")?;
    write_values(stack, writer)?;
    writer.name("heap")?;
    write_cells(cells, writer)
}

#[tactic(auto, using(cyc_lex::proofs::WritingLaws::write_all_on), unfolding(crate::specs::Grammar::question, cyc_lex::specs::Writing::write_all))]
fn write_question(tree: &HeapTree<'_>, writer: &mut WordWriter) -> Result<(), OutOfMemory>
    requires { question.fits (heap_of tree.now) }
    ensures { OnOk result (writer.new ≡ write_all writer.old (question.words (heap_of tree.now))) }
{
    writer.name("ask")?;
    write_heap(false, tree, writer)?;
    writer.symbol(";")?;
    writer.name("end")
}

#[tactic(auto, using(cyc_lex::proofs::WritingLaws::write_all_on), unfolding(crate::specs::Grammar::body, cyc_lex::specs::Writing::write_all))]
fn write_body(tree: &ModelTree<'_>, writer: &mut WordWriter) -> Result<(), OutOfMemory>
    requires { body.fits (model_of tree.now) }
    ensures { OnOk result (writer.new ≡ write_all writer.old (body.words (model_of tree.now))) }
{
    writer.name("cyclist")?;
    writer.name("model")?;
    write_model_version(tree.version, writer)?;
    writer.symbol(";")?;
    write_definitions(&tree.definitions, writer)?;
    write_state(&tree.stack, &tree.cells, writer)?;
    write_question(&tree.ask, writer)?;
    writer.symbol(";")
}

/// The text of a tree that has one: its words with one space between neighbours but where the format has none, and a
/// line feed after each `;`.
#[tactic(auto, unfolding(crate::specs::Grammar::model))]
pub fn write_tree(alloc: Global, tree: &ModelTree<'_>) -> Result<Vec<u8>, OutOfMemory>
    requires { model.fits (model_of tree.now) }
    ensures text { IfOk result (λ bytes. bytes.items ≡ text_of (body.words (model_of tree.now))) }
    // The tree is read again from it.
    ensures again { IfOk result (λ bytes. Spells bytes.items (body.words (model_of tree.now))) }
{
    let mut writer = WordWriter::new(alloc);
    write_body(tree, &mut writer)?;
    Ok(writer.finish())
}
