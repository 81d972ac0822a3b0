// Files that are made part by part: what stands before the nodes, each node, and the whole of them.
ghost use Rattle.std.specs.Prelude.{◌≡◌, ◌+◌, ◌<◌, ◌≤◌, ◌^◌, None, length, map, IfOk};
ghost use Rattle.heap_syntax.specs.Versions.{limits};
ghost use Rattle.heap_reader.specs.Flaws.{IsWalk};
ghost use Rattle.heap_syntax.specs.NumberedEnds.{ends as ends_syntax};
ghost use Rattle.proof_syntax.specs.Grammar.{node};
ghost use Rattle.proof_syntax.specs.Trees.{definition_of, end_of, node_of};
ghost use Rattle.proof_file.specs.Building.{front_of, AreSaid, IsNodeMade};
ghost use Rattle.proof_file.specs.Flaws.{headings, node_flaw, first_node, file_flaw};
ghost use Rattle.proof_file.specs.Spans.{node_span};
ghost use Rattle.heap_reader.specs.EndValues.{ended_value};
ghost use Rattle.proof_file.specs.Values.{term_value, definition_value, node_value};

use crate::file::ProofFile;
use crate::node::{FileNode, FileNodes};
use crate::scope::ProgramVariables;
use crate::values::value_of_node;
use crate::walk::walk_node;
use cyc_basics::limits::MOST_PREDICATES;
use cyc_basics::memory::OutOfMemory;
use goto_lang::Program;
use heap_reader::definitions::{Scope, definition_values, walk_definitions};
use heap_reader::ends::{program, walk_ends};
use heap_reader::lines::walk_lines;
use heap_reader::{Flaw, Heads};
use heap_syntax::Version;
use heap_syntax::definitions::EndTree;
use pred_defs::Defs;
use proof_syntax::{DefinitionTree, LineTree, NodeTree};
use std::alloc::Global;

/// Why no node is made.
#[derive(Clone, Copy)]
pub enum NodeFault {
    Flaw(Flaw),
    OutOfMemory,
}

impl From<OutOfMemory> for NodeFault {
    ghost use Rattle.std.specs.Prelude.{◌≡◌};
    ghost use Rattle.proof_file.specs.declared.building.NodeFault.TheVariants as faults;

    ghost from_gives = { λ _ e. e ≡ faults.OutOfMemory };

    fn from(_error: OutOfMemory) -> NodeFault {
        NodeFault::OutOfMemory
    }
}

impl From<Flaw> for NodeFault {
    ghost use Rattle.std.specs.Prelude.{◌≡◌};
    ghost use Rattle.proof_file.specs.declared.building.NodeFault.TheVariants as faults;

    ghost from_gives = { λ flaw e. e ≡ faults.Flaw flaw };

    fn from(flaw: Flaw) -> NodeFault {
        NodeFault::Flaw(flaw)
    }
}

/// What a file says before its nodes.
#[derive(Drop)]
pub struct FileFront {
    pub defs: Defs,
    pub program: Program,
}

/// The definitions, the lines and the ends, from the fourth token on.
fn front(
    heads: &Heads<'_>,
    version: Version,
    definitions: &[DefinitionTree<'_>],
    lines: &[LineTree],
    ends: &[EndTree<'_>],
) -> Result<usize, Flaw>
    requires known { heads.now ≡ headings (map definition_of definitions.now) }
    requires fits { first_node
        (front_of version (map definition_of definitions.now) lines.now (map end_of ends.now)) < 2 ^ 64 }
    ensures { IsWalk result
        (file_flaw (front_of version (map definition_of definitions.now) lines.now (map end_of ends.now)))
        (first_node (front_of version (map definition_of definitions.now) lines.now (map end_of ends.now))) }
{
    let most = version.limits();
    let first_line = walk_definitions(heads, most, 4, definitions)?;
    let first_end = walk_lines(&ProgramVariables, most, first_line, lines)?;
    walk_ends(heads, &Scope::End, most, lines, first_end, ends)
}

/// The first flaw of what stands before the nodes of a file; the heads are those of its definitions.
pub fn front_flaw(
    heads: &Heads<'_>,
    version: Version,
    definitions: &[DefinitionTree<'_>],
    lines: &[LineTree],
    ends: &[EndTree<'_>],
) -> Option<Flaw>
    requires known { heads.now ≡ headings (map definition_of definitions.now) }
    requires fits { first_node
        (front_of version (map definition_of definitions.now) lines.now (map end_of ends.now)) < 2 ^ 64 }
    ensures { result ≡ file_flaw
        (front_of version (map definition_of definitions.now) lines.now (map end_of ends.now)) }
{
    front(heads, version, definitions, lines, ends).err()
}

/// What definitions, lines and ends without a flaw say.
pub fn front_values(
    alloc: Global,
    heads: &Heads<'_>,
    version: Version,
    definitions: &[DefinitionTree<'_>],
    lines: &[LineTree],
    ends: &[EndTree<'_>],
) -> Result<FileFront, OutOfMemory>
    requires known { heads.now ≡ headings (map definition_of definitions.now) }
    requires fits { (ends_syntax version).fits (map end_of ends.now) }
    requires right { file_flaw
        (front_of version (map definition_of definitions.now) lines.now (map end_of ends.now)) ≡ None }
    ensures most { IfOk result (λ f. f.defs.most ≡ limits version) }
    ensures definitions { IfOk result
        (λ f. f.defs.list ≡ map (definition_value heads.now) (map definition_of definitions.now)) }
    ensures program { IfOk result
        (λ f. f.program ≡ ended_value term_value heads.now lines.now (map end_of ends.now)) }
{
    let values = definition_values(alloc, heads, definitions)?;
    let defs = Defs::from_vec(alloc, version.limits(), values);
    let program = program(alloc, heads, &ProgramVariables, &Scope::End, lines, ends)?;
    Ok(FileFront { defs, program })
}

/// What a node says that the grammar has, which begins at a token and before which so many nodes stand, in a file of so
/// many lines.
pub fn node_of_tree(
    alloc: Global,
    heads: &Heads<'_>,
    version: Version,
    lines: usize,
    n: usize,
    at: usize,
    tree: &NodeTree<'_>,
) -> Result<FileNode, NodeFault>
    requires fits { node.fits (node_of tree.now) }
    requires few { length heads.now ≤ MOST_PREDICATES }
    requires room { at + node_span (node_of tree.now) < 2 ^ 64 }
    ensures { IsNodeMade (node_flaw (limits version) heads.now lines n at (node_of tree.now))
        (node_value heads.now (node_of tree.now)) result }
{
    walk_node(heads, version.limits(), lines, n, at, tree)?;
    Ok(value_of_node(alloc, heads, tree)?)
}

/// The file of values that a tree without a flaw says.
pub fn file_of_values(
    version: Version,
    defs: Defs,
    program: Program,
    nodes: Vec<FileNode>,
) -> ProofFile
    requires { AreSaid version defs program nodes.items }
    ensures version { result.version ≡ version }
    ensures defs { result.defs ≡ defs }
    ensures program { result.program ≡ program }
    ensures nodes { result.nodes ≡ nodes.items }
{
    ProofFile {
        version,
        defs,
        program,
        nodes: FileNodes::from_vec(nodes),
    }
}
