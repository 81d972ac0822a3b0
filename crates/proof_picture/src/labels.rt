//! The labels of the nodes of a file.
ghost use Rattle.std.specs.Prelude.{◌≡◌, ◌≤◌, ◌-◌, IfOk, map, length, drop, take};
ghost use Rattle.cyc_lex.specs.Spelling.{Spells};
ghost use Rattle.proof_syntax.specs.Grammar.{node as node_syntax, body};
ghost use Rattle.proof_syntax.specs.Trees.{node_of};
ghost use Rattle.proof_picture.specs.Carried.{flags_of};
ghost use Rattle.proof_picture.specs.Labels.{alone, label_of_node, labels_of, labels_with, AllFit, IsTokensOf};
ghost use Rattle.proof_picture.specs.Labels.{flags_at as flags_of_node};
ghost use Rattle.proof_picture.specs.Layout.{label};
ghost use Rattle.proof_picture.specs.Pieces.{piece_of, pieces_of};

use crate::layout::lay_out;
use crate::piece::{Label, Piece};
use cyc_basics::memory::OutOfMemory;
use cyc_lex::{Token, Tokens, tokens};
use heap_syntax::Version;
use proof_file::ProofFile;
use proof_file::texts::write_file;
use proof_syntax::writing::write_tree;
use proof_syntax::{FileTree, NodeTree, read_tree};
use std::alloc::Global;
use std::collections::VecDeque;

/// The tokens of a text that was written. A text of 4 GB would be refused as out of memory.
pub fn written_tokens(alloc: Global, text: &[u8]) -> Result<Tokens<'_>, OutOfMemory>
    ensures { IfOk result (λ t. IsTokensOf text.now t) }
{
    if text.len() >= u32::MAX as usize {
        return Err(OutOfMemory);
    }
    match tokens(alloc, text) {
        Ok(tokens) => Ok(tokens),
        // A written text has tokens, so this is out of memory.
        Err(_) => Err(OutOfMemory),
    }
}

/// The text of a file that has this node alone, and no numbers of premises.
pub fn text_alone(alloc: Global, node: NodeTree<'_>) -> Result<Vec<u8>, OutOfMemory>
    requires { node_syntax.fits (node_of node) }
    ensures { IfOk result (λ bytes. Spells bytes.items (body.words (alone (node_of node.entry)))) }
{
    let mut nodes = Vec::new(alloc);
    nodes.push(NodeTree {
        judgement: node.judgement,
        reason: node.reason,
        premises: Vec::new(alloc),
    })?;
    let tree = FileTree {
        version: Version::One,
        definitions: Vec::new(alloc),
        lines: Vec::new(alloc),
        ends: Vec::new(alloc),
        nodes,
    };
    write_tree(alloc, &tree)
}

/// The words of the node in the text of a file that has it alone: those between the heading `cyclist proof 1; node` and
/// `; end;`.
pub fn statement<'t, 'a>(tokens: &'t [Token<'a>]) -> &'t [Token<'a>]
    requires { 9 ≤ length tokens.now }
    ensures { result.now ≡ drop 5 (take (length tokens.now - 4) tokens.now) }
{
    let (words, _) = tokens.split_at(tokens.len() - 4);
    let (_, words) = words.split_at(5);
    words
}

/// The label of a node: its words, laid out.
fn label_of(alloc: Global, node: NodeTree<'_>, flags: &[bool]) -> Result<Vec<Piece>, OutOfMemory>
    requires { node_syntax.fits (node_of node) }
    ensures { IfOk result (λ v. map piece_of v.items ≡ label_of_node flags.now (node_of node.entry)) }
{
    let text = text_alone(alloc, node)?;
    let tokens = written_tokens(alloc, &text)?;
    lay_out(alloc, statement(tokens.as_slice()), flags)
}

/// The flags of a node, none past the end.
pub fn carried_at(flags: &VecDeque<Vec<bool>>, v: usize) -> &[bool]
    ensures { result.now ≡ flags_of_node (map flags_of flags.now.items) v }
{
    match flags.get(v) {
        Some(flags) => flags.as_slice(),
        None => &[],
    }
}

fn labels_of_trees(
    alloc: Global,
    nodes: Vec<NodeTree<'_>>,
    flags: &VecDeque<Vec<bool>>,
) -> Result<Vec<Label>, OutOfMemory>
    requires { AllFit (map node_of nodes.items) }
    ensures { IfOk result (λ v. map pieces_of v.items
        ≡ labels_of (map flags_of flags.now.items) 0 (map node_of nodes.entry.items)) }
{
    let mut labels = Vec::new(alloc);
    for node in nodes {
        let pieces = label_of(alloc, node, carried_at(flags, labels.len()))?;
        labels.push(Label { pieces })?;
    }
    Ok(labels)
}

/// The labels of the nodes of a file, in order; `flags` says of each node, and of each spatial atom of its antecedent,
/// whether the atom stands out.
pub fn labels_of_file(
    alloc: Global,
    file: &ProofFile,
    flags: &VecDeque<Vec<bool>>,
) -> Result<Vec<Label>, OutOfMemory>
    ensures { IfOk result (λ v. map pieces_of v.items ≡ labels_with file.now (map flags_of flags.now.items)) }
{
    let text = write_file(alloc, file)?;
    let tokens = written_tokens(alloc, &text)?;
    match read_tree(alloc, &tokens) {
        Ok(tree) => labels_of_trees(alloc, tree.nodes, flags),
        // A written file is read again, so this is out of memory.
        Err(_) => Err(OutOfMemory),
    }
}
