//! Writing whole run files.

ghost use Rattle.std.specs.Prelude.{◌≡◌, map, OnOk, IfOk};
ghost use Rattle.cyc_lex.specs.Spacing.{text_of};
ghost use Rattle.cyc_lex.specs.Spelling.{Spells};
ghost use Rattle.cyc_lex.specs.Writing.{write_all};
ghost use Rattle.heap_syntax.specs.DefinitionTrees.{heap_of};
ghost use Rattle.heap_syntax.specs.NumberedEnds.{end_of, ends};
ghost use Rattle.proof_syntax.specs.Grammar.{lines};
ghost use Rattle.model_file.specs.Versions.{format_of};
ghost use Rattle.model_file.specs.Grammar.{state};
ghost use Rattle.model_file.specs.Trees.{cell_of};
ghost use Rattle.run_file.specs.Grammar.{state_claimed, claim, claim_of, then_step, growing, outcome, ending, course};
ghost use Rattle.run_file.specs.Grammar.{course_of, body, run};
ghost use Rattle.run_file.specs.Trees.{run_of};

use crate::items::{write_cells, write_picks, write_value_pairs, write_values};
use crate::tree::{Outcome, RunTree};
use cyc_basics::memory::OutOfMemory;
use cyc_lex::WordWriter;
use general_models::runs::Growth;
use heap_syntax::definitions::{EndTree, HeapTree};
use heap_syntax::writing::{write_definitions, write_heap};
use model_file::syntax::CellTree;
use model_file::{ModelVersion, write_model_version};
use proof_syntax::{DollarVariables, LineTree};
use std::alloc::Global;

/// Writes the lines of the program.
fn write_lines(
    version: ModelVersion,
    trees: &[LineTree],
    writer: &mut WordWriter,
) -> Result<(), OutOfMemory>
    requires { (lines (format_of version)).fits trees.now }
    ensures { OnOk result (writer.new ≡ write_all writer.old ((lines (format_of version)).words trees.now)) }
{
    proof_syntax::writing::write_lines(&DollarVariables, version.format(), trees, writer)
}

/// Writes the ends of the program.
fn write_ends(
    version: ModelVersion,
    trees: &[EndTree<'_>],
    writer: &mut WordWriter,
) -> Result<(), OutOfMemory>
    requires { (ends (format_of version)).fits (map end_of trees.now) }
    ensures { OnOk result
        (writer.new ≡ write_all writer.old ((ends (format_of version)).words (map end_of trees.now))) }
{
    heap_syntax::writing::write_ends(version.format(), trees, writer)
}

#[tactic(auto, using(cyc_lex::proofs::WritingLaws::write_all_on), unfolding(crate::specs::Grammar::state_claimed, cyc_lex::specs::Writing::write_all))]
fn write_state_claimed(
    line: u32,
    precondition: &HeapTree<'_>,
    writer: &mut WordWriter,
) -> Result<(), OutOfMemory>
    requires { state_claimed.fits (line, heap_of precondition.now) }
    ensures { OnOk result
        (writer.new ≡ write_all writer.old (state_claimed.words (line, heap_of precondition.now))) }
{
    writer.name("from")?;
    writer.number(line)?;
    writer.name("given")?;
    write_heap(true, precondition, writer)?;
    writer.symbol(";")
}

/// Writes the definitions, the lines, the ends, and what is claimed.
#[tactic(auto, using(cyc_lex::proofs::WritingLaws::write_all_on), unfolding(crate::specs::Grammar::claim))]
fn write_claim(tree: &RunTree<'_>, writer: &mut WordWriter) -> Result<(), OutOfMemory>
    requires { (claim tree.now.version).fits (claim_of (run_of tree.now)) }
    ensures { OnOk result (writer.new
        ≡ write_all writer.old ((claim tree.now.version).words (claim_of (run_of tree.now)))) }
{
    write_definitions(&tree.definitions, writer)?;
    write_lines(tree.version, &tree.lines, writer)?;
    write_ends(tree.version, &tree.ends, writer)?;
    write_state_claimed(tree.line, &tree.precondition, writer)
}

#[tactic(auto, using(cyc_lex::proofs::WritingLaws::write_all_on), unfolding(model_file::specs::Grammar::state, cyc_lex::specs::Writing::write_all))]
fn write_state(
    stack: &[u32],
    cells: &[CellTree],
    writer: &mut WordWriter,
) -> Result<(), OutOfMemory>
    requires { state.fits (stack.now, map cell_of cells.now) }
    ensures { OnOk result (writer.new ≡ write_all writer.old (state.words (stack.now, map cell_of cells.now))) }
{
    writer.name("stack")?;
    write_values(stack, writer)?;
    writer.name("heap")?;
    write_cells(cells, writer)
}

#[tactic(auto, unfolding(crate::specs::Grammar::then_step, cyc_lex::specs::Writing::write_all))]
fn write_then_step(first: u32, step: u32, writer: &mut WordWriter) -> Result<(), OutOfMemory>
    requires { then_step.fits (first, step) }
    ensures { OnOk result (writer.new ≡ write_all writer.old (then_step.words (first, step))) }
{
    writer.number(first)?;
    writer.name("step")?;
    writer.number(step)
}

#[tactic(auto, using(cyc_lex::proofs::WritingLaws::write_all_on), unfolding(crate::specs::Grammar::growing, cyc_lex::specs::Writing::write_all))]
fn write_growing(tree: &Growth, writer: &mut WordWriter) -> Result<(), OutOfMemory>
    requires { growing.fits tree.now }
    ensures { OnOk result (writer.new ≡ write_all writer.old (growing.words tree.now)) }
{
    writer.name("grows")?;
    writer.name("step")?;
    write_then_step(tree.first, tree.again, writer)?;
    writer.name("with")?;
    writer.symbol("(")?;
    write_value_pairs(tree.renaming.as_slice(), writer)
}

#[tactic(auto, unfolding(crate::specs::Grammar::outcome, crate::specs::Grammar::faulting, crate::specs::Grammar::repeating, crate::specs::Grammar::breaking, crate::specs::Grammar::breaking_or_growing, cyc_lex::specs::Writing::write_all))]
fn write_outcome(tree: &RunTree<'_>, writer: &mut WordWriter) -> Result<(), OutOfMemory>
    requires { (outcome tree.now.version).fits tree.now.outcome }
    ensures { OnOk result (writer.new
        ≡ write_all writer.old ((outcome tree.now.version).words tree.now.outcome)) }
{
    match &tree.outcome {
        Outcome::Faults { line, step } => {
            writer.name("faults")?;
            writer.name("line")?;
            write_then_step(*line, *step, writer)
        }
        Outcome::Repeats { first, again } => {
            writer.name("repeats")?;
            writer.name("step")?;
            write_then_step(*first, *again, writer)
        }
        Outcome::Grows(growth) => write_growing(growth, writer),
        Outcome::Breaks { step } => {
            writer.name("breaks")?;
            writer.name("step")?;
            writer.number(*step)
        }
    }
}

#[tactic(auto, using(cyc_lex::proofs::WritingLaws::write_all_on), unfolding(crate::specs::Grammar::ending, cyc_lex::specs::Writing::write_all))]
fn write_ending(tree: &RunTree<'_>, writer: &mut WordWriter) -> Result<(), OutOfMemory>
    requires { (ending tree.now.version).fits tree.now.outcome }
    ensures { OnOk result (writer.new
        ≡ write_all writer.old ((ending tree.now.version).words tree.now.outcome)) }
{
    write_outcome(tree, writer)?;
    writer.symbol(";")?;
    writer.name("end")
}

/// Writes the stack, the heap, the picks and how the run ends.
#[tactic(auto, using(cyc_lex::proofs::WritingLaws::write_all_on), unfolding(crate::specs::Grammar::course, cyc_lex::specs::Writing::write_all))]
fn write_course(tree: &RunTree<'_>, writer: &mut WordWriter) -> Result<(), OutOfMemory>
    requires { (course tree.now.version).fits (course_of (run_of tree.now)) }
    ensures { OnOk result (writer.new
        ≡ write_all writer.old ((course tree.now.version).words (course_of (run_of tree.now)))) }
{
    write_state(&tree.stack, &tree.cells, writer)?;
    writer.name("picks")?;
    write_picks(&tree.picks, writer)?;
    write_ending(tree, writer)
}

#[tactic(auto, using(cyc_lex::proofs::WritingLaws::write_all_on), unfolding(crate::specs::Grammar::body, cyc_lex::specs::Writing::write_all))]
fn write_body(tree: &RunTree<'_>, writer: &mut WordWriter) -> Result<(), OutOfMemory>
    requires { body.fits (run_of tree.now) }
    ensures { OnOk result (writer.new ≡ write_all writer.old (body.words (run_of tree.now))) }
{
    writer.name("cyclist")?;
    writer.name("run")?;
    write_model_version(tree.version, writer)?;
    writer.symbol(";")?;
    write_claim(tree, writer)?;
    write_course(tree, writer)?;
    writer.symbol(";")
}

/// The text of a tree that has one: its words with one space between neighbours but where the format has none, and a
/// line feed after each `;`.
#[tactic(auto, unfolding(crate::specs::Grammar::run))]
pub fn write_tree(alloc: Global, tree: &RunTree<'_>) -> Result<Vec<u8>, OutOfMemory>
    requires { run.fits (run_of tree.now) }
    ensures text { IfOk result (λ bytes. bytes.items ≡ text_of (body.words (run_of tree.now))) }
    // The tree is read again from it.
    ensures again { IfOk result (λ bytes. Spells bytes.items (body.words (run_of tree.now))) }
{
    let mut writer = WordWriter::new(alloc);
    write_body(tree, &mut writer)?;
    Ok(writer.finish())
}
