//! Writing definitions, nodes and whole files.

ghost use Rattle.std.specs.Prelude.{◌≡◌, map, OnOk, IfOk};
ghost use Rattle.cyc_lex.specs.Spacing.{text_of};
ghost use Rattle.cyc_lex.specs.Spelling.{Spells};
ghost use Rattle.cyc_lex.specs.Writing.{write_all};
ghost use Rattle.proof_syntax.specs.Grammar.{disjuncts, definitions, lines, entailment, state, judgement, node};
ghost use Rattle.proof_syntax.specs.Grammar.{more_nodes, nodes, body, file};
ghost use Rattle.proof_syntax.specs.Trees.{heap_of, entailment_of, judgement_of, node_of, file_of};

use crate::writing::lines;
use crate::writing::reasons::write_reason;
use crate::{
    DollarVariables, EntailmentTree, FileTree, HeapTree, JudgementTree, LineTree, NodeTree,
};
use cyc_basics::memory::OutOfMemory;
use cyc_lex::WordWriter;
use heap_syntax::writing::{
    write_definitions, write_ends, write_heap, write_heaps, write_premises,
};
use heap_syntax::{Mark, Version, write_version};
use std::alloc::Global;

#[tactic(auto, unfolding(crate::specs::Grammar::disjuncts))]
fn write_disjuncts(trees: &[HeapTree<'_>], writer: &mut WordWriter) -> Result<(), OutOfMemory>
    requires { disjuncts.fits (map heap_of trees.now) }
    ensures { OnOk result (writer.new ≡ write_all writer.old (disjuncts.words (map heap_of trees.now))) }
{
    write_heaps(&Mark::Keyword("or"), &Mark::Keyword("by"), trees, writer)
}

#[tactic(auto, using(cyc_lex::proofs::WritingLaws::write_all_on), unfolding(crate::specs::Grammar::entailment, cyc_lex::specs::Writing::write_all))]
fn write_entailment(tree: &EntailmentTree<'_>, writer: &mut WordWriter) -> Result<(), OutOfMemory>
    requires { entailment.fits (entailment_of tree.now) }
    ensures { OnOk result (writer.new ≡ write_all writer.old (entailment.words (entailment_of tree.now))) }
{
    write_heap(true, &tree.antecedent, writer)?;
    writer.symbol("|-")?;
    write_disjuncts(&tree.disjuncts, writer)
}

/// Writes the number of a line and the symbolic state there.
#[tactic(auto, using(cyc_lex::proofs::WritingLaws::write_all_on), unfolding(crate::specs::Grammar::state, cyc_lex::specs::Writing::write_all))]
fn write_state(line: u32, heap: &HeapTree<'_>, writer: &mut WordWriter) -> Result<(), OutOfMemory>
    requires { state.fits (line, heap_of heap.now) }
    ensures { OnOk result (writer.new ≡ write_all writer.old (state.words (line, heap_of heap.now))) }
{
    writer.name("from")?;
    writer.number(line)?;
    writer.name("given")?;
    write_heap(true, heap, writer)?;
    writer.name("by")
}

#[tactic(auto, unfolding(crate::specs::Grammar::judgement))]
fn write_judgement(tree: &JudgementTree<'_>, writer: &mut WordWriter) -> Result<(), OutOfMemory>
    requires { judgement.fits (judgement_of tree.now) }
    ensures { OnOk result (writer.new ≡ write_all writer.old (judgement.words (judgement_of tree.now))) }
{
    match tree {
        JudgementTree::Entailment(entailment) => write_entailment(entailment, writer),
        JudgementTree::From(line, heap) => write_state(*line, heap, writer),
    }
}

#[tactic(auto, using(cyc_lex::proofs::WritingLaws::write_all_on), unfolding(crate::specs::Grammar::node, cyc_lex::specs::Writing::write_all))]
fn write_node(tree: &NodeTree<'_>, writer: &mut WordWriter) -> Result<(), OutOfMemory>
    requires { node.fits (node_of tree.now) }
    ensures { OnOk result (writer.new ≡ write_all writer.old (node.words (node_of tree.now))) }
{
    writer.name("node")?;
    write_judgement(&tree.judgement, writer)?;
    write_reason(&tree.reason, writer)?;
    write_premises(&tree.premises, writer)
}

#[tactic(auto, unfolding(crate::specs::Grammar::more_nodes))]
fn write_more_nodes(trees: &[NodeTree<'_>], writer: &mut WordWriter) -> Result<(), OutOfMemory>
    requires { more_nodes.fits (map node_of trees.now) }
    ensures { OnOk result (writer.new ≡ write_all writer.old (more_nodes.words (map node_of trees.now))) }
{
    for tree in trees {
        write_node(tree, writer)?;
    }
    Ok(())
}

#[tactic(auto, using(cyc_lex::proofs::WritingLaws::write_all_on), unfolding(crate::specs::Grammar::nodes, cyc_lex::specs::Writing::write_all))]
fn write_nodes(trees: &[NodeTree<'_>], writer: &mut WordWriter) -> Result<(), OutOfMemory>
    requires { nodes.fits (map node_of trees.now) }
    ensures { OnOk result (writer.new ≡ write_all writer.old (nodes.words (map node_of trees.now))) }
{
    match trees {
        [] => unreachable!(),
        [first, others @ ..] => {
            write_node(first, writer)?;
            write_more_nodes(others, writer)?;
            writer.name("end")
        }
    }
}

/// Writes the lines of the program.
fn write_lines(
    version: Version,
    trees: &[LineTree],
    writer: &mut WordWriter,
) -> Result<(), OutOfMemory>
    requires { (lines version).fits trees.now }
    ensures { OnOk result (writer.new ≡ write_all writer.old ((lines version).words trees.now)) }
{
    lines::write_lines(&DollarVariables, version, trees, writer)
}

#[tactic(auto, using(cyc_lex::proofs::WritingLaws::write_all_on), unfolding(crate::specs::Grammar::body, cyc_lex::specs::Writing::write_all))]
fn write_body(tree: &FileTree<'_>, writer: &mut WordWriter) -> Result<(), OutOfMemory>
    requires { body.fits (file_of tree.now) }
    ensures { OnOk result (writer.new ≡ write_all writer.old (body.words (file_of tree.now))) }
{
    writer.name("cyclist")?;
    writer.name("proof")?;
    write_version(tree.version, writer)?;
    writer.symbol(";")?;
    write_definitions(&tree.definitions, writer)?;
    write_lines(tree.version, &tree.lines, writer)?;
    write_ends(tree.version, &tree.ends, writer)?;
    write_nodes(&tree.nodes, writer)?;
    writer.symbol(";")
}

/// The text of a tree that has one: its words with one space between neighbours but where the format has none, and a
/// line feed after each `;`.
#[tactic(auto, unfolding(crate::specs::Grammar::file))]
pub fn write_tree(alloc: Global, tree: &FileTree<'_>) -> Result<Vec<u8>, OutOfMemory>
    requires { file.fits (file_of tree.now) }
    ensures text { IfOk result (λ bytes. bytes.items ≡ text_of (body.words (file_of tree.now))) }
    // The tree is read again from it.
    ensures again { IfOk result (λ bytes. Spells bytes.items (body.words (file_of tree.now))) }
{
    let mut writer = WordWriter::new(alloc);
    write_body(tree, &mut writer)?;
    Ok(writer.finish())
}
