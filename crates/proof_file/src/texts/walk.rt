// A walk over a file's tree in the order of its tokens, up to the first flaw. Each function is given the number of the
// part's first token and gives that of the token after it and the one that follows every part of its kind. `most` are
// the limits of the file's version.
ghost use Rattle.std.specs.Prelude.{◌≡◌, ◌+◌, ◌<◌, ◌^◌, map};
ghost use Rattle.proof_syntax.specs.Trees.{node_of, file_of};
ghost use Rattle.heap_reader.specs.Spans.{total};
ghost use Rattle.heap_reader.specs.Flaws.{listed_flaw, IsWalk};
ghost use Rattle.proof_file.specs.Spans.{node_span};
ghost use Rattle.proof_file.specs.Flaws.{headings, node_flaw, first_node, file_flaw as first_flaw};

use crate::{ProgramVariables, walk_node};
use cyc_basics::limits::Limits;
use heap_reader::definitions::{Scope, walk_definitions};
use heap_reader::ends::walk_ends;
use heap_reader::lines::walk_lines;
use heap_reader::{Flaw, Heads};
use proof_syntax::{FileTree, NodeTree};

fn nodes(
    heads: &Heads<'_>,
    most: Limits,
    count: usize,
    at: usize,
    trees: &[NodeTree<'_>],
) -> Result<usize, Flaw>
    requires { at + total node_span (map node_of trees.now) < 2 ^ 64 }
    ensures { IsWalk result (listed_flaw (node_flaw most heads.now count) node_span 0 at (map node_of trees.now))
        (at + total node_span (map node_of trees.now)) }
{
    let mut next = at;
    for (n, tree) in trees.iter().enumerate() {
        next = walk_node(heads, most, count, n, next, tree)?;
    }
    Ok(next)
}

/// Definitions, lines, ends and nodes, from the fourth token on.
fn statements(heads: &Heads<'_>, tree: &FileTree<'_>) -> Result<usize, Flaw>
    requires known { heads.now ≡ headings (file_of tree.now).definitions }
    requires fits { first_node (file_of tree.now) + total node_span (map node_of tree.now.nodes.items) < 2 ^ 64 }
    ensures { IsWalk result (first_flaw (file_of tree.now))
        (first_node (file_of tree.now) + total node_span (map node_of tree.now.nodes.items)) }
{
    let most = tree.version.limits();
    let first_line = walk_definitions(heads, most, 4, &tree.definitions)?;
    let first_end = walk_lines(&ProgramVariables, most, first_line, &tree.lines)?;
    let first_node = walk_ends(heads, &Scope::End, most, &tree.lines, first_end, &tree.ends)?;
    nodes(heads, most, tree.lines.len(), first_node, &tree.nodes)
}

/// The first flaw of a file, by its token; the heads are those of its definitions.
pub fn file_flaw(heads: &Heads<'_>, tree: &FileTree<'_>) -> Option<Flaw>
    requires known { heads.now ≡ headings (file_of tree.now).definitions }
    requires fits { first_node (file_of tree.now) + total node_span (map node_of tree.now.nodes.items) < 2 ^ 64 }
    ensures { result ≡ first_flaw (file_of tree.now) }
{
    statements(heads, tree).err()
}
