// Nodes that a file may have.
ghost use Rattle.std.specs.Prelude.{IsTrue};
ghost use Rattle.heap_formula.specs.Words.{Each};
ghost use Rattle.formula_reader.specs.Nodes.{IsNodeWithin};

use crate::limits::rules::{are_short_numbers, is_reason_within, is_short_reason};
use formula_reader::limits::judgement_excess;
use pred_defs::Defs;
use proof_file::FileNode;

fn is_node_within(defs: &Defs, lines: usize, node: &FileNode) -> bool
    ensures { IsTrue result → IsNodeWithin defs.now.most defs.now.list lines node.now }
{
    judgement_excess(defs, lines, &node.judgement).is_none()
        && is_reason_within(defs, &node.reason)
        && is_short_reason(&node.reason)
        && are_short_numbers(node.premises.as_slice())
}

/// Whether a file over the definitions, with so many lines, may have each of the nodes.
pub fn are_nodes_within(defs: &Defs, lines: usize, nodes: &[FileNode]) -> bool
    ensures { IsTrue result → Each (IsNodeWithin defs.now.most defs.now.list lines) nodes.now }
{
    for node in nodes {
        if !is_node_within(defs, lines, node) {
            return false;
        }
    }
    true
}
