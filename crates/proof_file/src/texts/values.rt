// The values of a file's nodes.
ghost use Rattle.std.specs.Prelude.{◌≡◌, ◌≤◌, length, map, IfOk};
ghost use Rattle.heap_formula.specs.Words.{Each};
ghost use Rattle.proof_syntax.specs.Trees.{node_of};
ghost use Rattle.proof_file.specs.Small.{IsSmallNode};
ghost use Rattle.proof_file.specs.Values.{node_value};

use crate::{FileNode, value_of_node};
use cyc_basics::limits::MOST_PREDICATES;
use cyc_basics::memory::OutOfMemory;
use heap_reader::Heads;
use proof_syntax::NodeTree;
use std::alloc::Global;

/// The nodes of a file.
pub fn nodes(
    alloc: Global,
    heads: &Heads<'_>,
    trees: &[NodeTree<'_>],
) -> Result<Vec<FileNode>, OutOfMemory>
    requires small { Each IsSmallNode (map node_of trees.now) }
    requires few { length heads.now ≤ MOST_PREDICATES }
    ensures { IfOk result (λ v. v.items ≡ map (node_value heads.now) (map node_of trees.now)) }
{
    let mut nodes = Vec::with_capacity(alloc, trees.len())?;
    for tree in trees {
        nodes.push(value_of_node(alloc, heads, tree)?)?;
    }
    Ok(nodes)
}
