//! The labels of nodes in the words of a problem.
ghost use Rattle.std.specs.Prelude.{◌≡◌, ◌++◌, IfOk, OnOk, map, option_map};
ghost use Rattle.cyc_lex.specs.Word.{word};
ghost use Rattle.proof_syntax.specs.Grammar.{node as node_syntax};
ghost use Rattle.proof_syntax.specs.Trees.{judgement_of, node_of, reason_of};
ghost use Rattle.proof_picture.specs.Carried.{flags_of};
ghost use Rattle.proof_picture.specs.Labels.{AllFit, statement as statement_words};
ghost use Rattle.proof_picture.specs.Layout.{label as laid_out};
ghost use Rattle.proof_picture.specs.Pieces.{piece_of, pieces_of};
ghost use Rattle.proof_picture.specs.NamedLabels.{line_number, line_part, named_label, named_labels, named_labels_from};
ghost use Rattle.proof_picture.specs.NamedLabels.{scope_at as scope_in, target_number};
ghost use Rattle.proof_picture.specs.Naming.{naming_of, words_of};
ghost use Rattle.proof_picture.specs.Words.{named_words, scope_of};

use crate::names::kept::flags_at;
use crate::names::naming::Naming;
use crate::names::words::{Scope, named_tokens};
use crate::{Label, Piece, carried_at, lay_out, statement, text_alone, written_tokens};
use cyc_basics::memory::OutOfMemory;
use cyc_lex::Token;
use proof_file::ProofFile;
use proof_file::texts::write_file;
use proof_syntax::{JudgementTree, NodeTree, ReasonTree, read_tree};
use std::alloc::Global;
use std::collections::VecDeque;

/// The number of the line from which a judgement starts, if it does from one.
fn line_of(judgement: &JudgementTree<'_>) -> Option<u32>
    ensures { result ≡ line_number (judgement_of judgement.now) }
{
    match judgement {
        JudgementTree::Entailment(_) => None,
        JudgementTree::From(line, _) => Some(*line),
    }
}

/// The number of the companion, if the reason is a link.
fn target_of(reason: &ReasonTree<'_>) -> Option<u32>
    ensures { result ≡ target_number (reason_of reason.now) }
{
    match reason {
        ReasonTree::Link(link) => Some(link.target),
        _ => None,
    }
}

/// The names that node `v` shows, and those of its companion.
fn scope_at<'s, 'a>(
    naming: &Naming<'s, 'a>,
    kept: &'s [Vec<bool>],
    v: usize,
    target: Option<u32>,
) -> Scope<'s, 'a>
    ensures { scope_of result ≡ scope_in (naming_of naming.now).names (map flags_of kept.now) v target }
{
    let keys = match target {
        Some(target) => flags_at(kept, target as usize),
        None => &[],
    };
    Scope {
        names: naming.names,
        own: flags_at(kept, v),
        keys,
    }
}

fn add_all(pieces: &mut Vec<Piece>, more: Vec<Piece>) -> Result<(), OutOfMemory>
    ensures { OnOk result (map piece_of pieces.new.items
        ≡ map piece_of pieces.old.items ++ map piece_of more.items) }
{
    for piece in more {
        pieces.push(piece)?;
    }
    Ok(())
}

/// Adds a statement, if there is one, and ends the line.
pub fn add_statement(
    alloc: Global,
    pieces: &mut Vec<Piece>,
    statement: Option<&[Token<'_>]>,
) -> Result<(), OutOfMemory>
    ensures { OnOk result (map piece_of pieces.new.items
        ≡ map piece_of pieces.old.items ++ line_part (option_map words_of statement.entry)) }
{
    match statement {
        None => Ok(()),
        Some(statement) => {
            add_all(pieces, lay_out(alloc, statement, &[])?)?;
            pieces.push(Piece::Line)?;
            Ok(())
        }
    }
}

/// Words of a node with names, laid out.
fn lay_out_named(
    alloc: Global,
    scope: &Scope<'_, '_>,
    flags: &[bool],
    tokens: &[Token<'_>],
) -> Result<Vec<Piece>, OutOfMemory>
    ensures { IfOk result (λ p. map piece_of p.items
        ≡ laid_out flags.now (named_words (scope_of scope.now) (map word tokens.now))) }
{
    let words = named_tokens(alloc, scope, tokens)?;
    lay_out(alloc, words.as_slice(), flags)
}

/// The words of a node with names, laid out.
fn node_words(
    alloc: Global,
    scope: &Scope<'_, '_>,
    flags: &[bool],
    node: NodeTree<'_>,
) -> Result<Vec<Piece>, OutOfMemory>
    requires { node_syntax.fits (node_of node) }
    ensures { IfOk result (λ p. map piece_of p.items
        ≡ laid_out flags.now (named_words (scope_of scope.now) (statement_words (node_of node.entry)))) }
{
    let text = text_alone(alloc, node)?;
    let tokens = written_tokens(alloc, &text)?;
    lay_out_named(alloc, scope, flags, statement(tokens.as_slice()))
}

/// The label of node `v`: the line of the program, if it starts from one, and its words with names.
fn label(
    alloc: Global,
    naming: &Naming<'_, '_>,
    kept: &[Vec<bool>],
    flags: &[bool],
    v: usize,
    node: NodeTree<'_>,
) -> Result<Vec<Piece>, OutOfMemory>
    requires { node_syntax.fits (node_of node) }
    ensures { IfOk result (λ p. map piece_of p.items
        ≡ named_label (naming_of naming.now) (map flags_of kept.now) flags.now v (node_of node.entry)) }
{
    let line = match line_of(&node.judgement) {
        Some(number) => naming.line(number),
        None => None,
    };
    let scope = scope_at(naming, kept, v, target_of(&node.reason));
    let mut pieces = Vec::new(alloc);
    add_statement(alloc, &mut pieces, line)?;
    add_all(&mut pieces, node_words(alloc, &scope, flags, node)?)?;
    Ok(pieces)
}

fn labels_of_trees(
    alloc: Global,
    naming: &Naming<'_, '_>,
    kept: &[Vec<bool>],
    flags: &VecDeque<Vec<bool>>,
    nodes: Vec<NodeTree<'_>>,
) -> Result<Vec<Label>, OutOfMemory>
    requires { AllFit (map node_of nodes.items) }
    ensures { IfOk result (λ v. map pieces_of v.items ≡ named_labels_from (naming_of naming.now)
        (map flags_of kept.now) (map flags_of flags.now.items) 0 (map node_of nodes.entry.items)) }
{
    let mut labels = Vec::new(alloc);
    for node in nodes {
        let v = labels.len();
        let pieces = label(alloc, naming, kept, carried_at(flags, v), v, node)?;
        labels.push(Label { pieces })?;
    }
    Ok(labels)
}

/// The labels of the nodes of a file, in order, where each shows these of the names, and these spatial atoms stand out.
pub fn labels_of_file(
    alloc: Global,
    naming: &Naming<'_, '_>,
    file: &ProofFile,
    kept: &[Vec<bool>],
    flags: &VecDeque<Vec<bool>>,
) -> Result<Vec<Label>, OutOfMemory>
    ensures { IfOk result (λ v. map pieces_of v.items ≡ named_labels (naming_of naming.now) file.now
        (map flags_of kept.now) (map flags_of flags.now.items)) }
{
    let text = write_file(alloc, file)?;
    let tokens = written_tokens(alloc, &text)?;
    match read_tree(alloc, &tokens) {
        Ok(tree) => labels_of_trees(alloc, naming, kept, flags, tree.nodes),
        // A written file is read again, so this is out of memory.
        Err(_) => Err(OutOfMemory),
    }
}
