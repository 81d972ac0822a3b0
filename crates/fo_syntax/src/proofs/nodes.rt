//! Nodes of proofs.

ghost use Rattle.std.specs.Prelude.{◌≡◌, map, OnOk};
ghost use Rattle.cyc_lex.specs.Writing.{write_all};
ghost use Rattle.cyc_grammar.specs.Giving.{Gives};
ghost use Rattle.fo_syntax.specs.ProofGrammar.{node, nodes};
ghost use Rattle.fo_syntax.specs.ProofTrees.{node_of};

use crate::problems::{Item, more_statements, sequent, write_sequent, write_statements};
use crate::proofs::read_reasons::reason;
use crate::proofs::tree::NodeTree;
use crate::proofs::write_reasons::write_reason;
use cyc_basics::memory::OutOfMemory;
use cyc_grammar::{Cursor, Refusal};
use cyc_lex::WordWriter;
use heap_syntax::premises;
use heap_syntax::writing::write_premises;
use std::alloc::Global;

#[tactic(auto, unfolding(crate::specs::ProofGrammar::node))]
fn node<'a>(alloc: Global, cursor: &mut Cursor<'_, 'a>) -> Result<NodeTree<'a>, Refusal>
    ensures { Gives (λ x. (node_of x, cursor.new)) result (node.read cursor.old) }
{
    cursor.keyword("node")?;
    let sequent = sequent(alloc, cursor)?;
    cursor.keyword("by")?;
    let reason = reason(alloc, cursor)?;
    let premises = premises(alloc, cursor)?;
    Ok(NodeTree {
        sequent,
        reason,
        premises,
    })
}

#[tactic(auto, using(cyc_lex::proofs::WritingLaws::write_all_on), unfolding(crate::specs::ProofGrammar::node, cyc_lex::specs::Writing::write_all))]
fn write_node(
    alloc: Global,
    tree: &NodeTree<'_>,
    writer: &mut WordWriter,
) -> Result<(), OutOfMemory>
    requires { node.fits (node_of tree.now) }
    ensures { OnOk result (writer.new ≡ write_all writer.old (node.words (node_of tree.now))) }
{
    writer.name("node")?;
    write_sequent(alloc, &tree.sequent, writer)?;
    writer.name("by")?;
    write_reason(alloc, &tree.reason, writer)?;
    write_premises(&tree.premises, writer)
}

#[derive(Clone, Copy)]
struct NodeKind;

impl<'a> Item<'a> for NodeKind {
    ghost use Rattle.fo_syntax.specs.ProofTrees.{Node, node_of};
    ghost use Rattle.fo_syntax.specs.ProofGrammar as grammar;

    type Tree = NodeTree<'a>;

    ghost Value = { Node };

    ghost seen = { node_of };

    ghost syntax = { λ _. grammar.node };

    fn read_item(
        &self,
        alloc: Global,
        cursor: &mut Cursor<'_, 'a>,
    ) -> Result<NodeTree<'a>, Refusal> {
        node(alloc, cursor)
    }

    fn write_item(
        &self,
        alloc: Global,
        tree: &NodeTree<'a>,
        writer: &mut WordWriter,
    ) -> Result<(), OutOfMemory> {
        write_node(alloc, tree, writer)
    }
}

/// Reads the nodes, of which there is one at least, and the word after them.
#[tactic(auto, unfolding(crate::specs::ProofGrammar::nodes))]
pub fn nodes<'a>(alloc: Global, cursor: &mut Cursor<'_, 'a>) -> Result<Vec<NodeTree<'a>>, Refusal>
    ensures { Gives (λ x. (map node_of x.items, cursor.new)) result (nodes.read cursor.old) }
{
    let mut items = Vec::new(alloc);
    items.push(node(alloc, cursor)?)?;
    let items = more_statements(alloc, "node", &NodeKind, items, cursor)?;
    cursor.keyword("end")?;
    Ok(items)
}

/// Writes the nodes and the word after them.
#[tactic(auto, using(cyc_lex::proofs::WritingLaws::write_all_on), unfolding(crate::specs::ProofGrammar::nodes, cyc_lex::specs::Writing::write_all))]
pub fn write_nodes(
    alloc: Global,
    trees: &[NodeTree<'_>],
    writer: &mut WordWriter,
) -> Result<(), OutOfMemory>
    requires { nodes.fits (map node_of trees.now) }
    ensures { OnOk result (writer.new ≡ write_all writer.old (nodes.words (map node_of trees.now))) }
{
    match trees {
        [] => unreachable!(),
        [first, others @ ..] => {
            write_node(alloc, first, writer)?;
            write_statements(alloc, &NodeKind, others, writer)?;
            writer.name("end")
        }
    }
}
