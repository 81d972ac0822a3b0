//! Reading one statement.

ghost use Rattle.cyc_grammar.specs.Giving.{Gives};
ghost use Rattle.proof_syntax.specs.Left.{First, Preds, Lines, Ends, Nodes, statement_of, kept_statement};
ghost use Rattle.proof_syntax.specs.Left.{first_statement, last_statement};
ghost use Rattle.proof_syntax.specs.StatementTrees.{end_or_node_of, line_or_later_of, pred_or_later_of};
ghost use Rattle.proof_syntax.specs.StatementTrees.{node_or_last_of};

use crate::statements::tree::{EndOrNode, LineOrLater, NodeOrLast, PredOrLater};
use crate::{kept_node, line};
use cyc_grammar::{Cursor, Refusal};
use heap_syntax::definitions::{kept_definition, kept_end};
use heap_syntax::ends::has_ends;
use heap_syntax::{Keep, Version, read_version};
use std::alloc::Global;

/// Reads the statement that says the version.
#[tactic(auto, unfolding(crate::specs::Left::first_statement))]
pub fn first_statement(cursor: &mut Cursor<'_, '_>) -> Result<Version, Refusal>
    ensures { Gives (λ v. (v, cursor.new)) result ((statement_of First).read cursor.old) }
{
    cursor.keyword("cyclist")?;
    cursor.keyword("proof")?;
    let version = read_version(cursor)?;
    cursor.symbol(";")?;
    Ok(version)
}

#[tactic(auto, unfolding(crate::specs::Left::last_statement))]
fn last_statement(cursor: &mut Cursor<'_, '_>) -> Result<(), Refusal>
    ensures { Gives (λ u. (u, cursor.new)) result (last_statement.read cursor.old) }
{
    cursor.keyword("end")?;
    cursor.symbol(";")
}

/// Reads an end of a program of a version, or a node; so much is kept of its lists of heaps and of theirs.
#[tactic(auto, unfolding(crate::specs::Left::kept_end_or_node))]
pub fn kept_end_or_node<'a>(
    alloc: Global,
    keep: Keep,
    version: Version,
    cursor: &mut Cursor<'_, 'a>,
) -> Result<EndOrNode<'a>, Refusal>
    ensures { Gives (λ s. (end_or_node_of s, cursor.new)) result
        ((kept_statement keep (Ends version)).read cursor.old) }
{
    if has_ends(version) && cursor.is_keyword_next("ends") {
        return Ok(EndOrNode::End(kept_end(alloc, keep, cursor)?));
    }
    Ok(EndOrNode::Node(kept_node(alloc, keep, cursor)?))
}

/// Reads a line or an end of a program of a version, or a node; so much is kept of its lists of heaps and of theirs.
#[tactic(auto, unfolding(crate::specs::Left::kept_line_or_later))]
pub fn kept_line_or_later<'a>(
    alloc: Global,
    keep: Keep,
    version: Version,
    cursor: &mut Cursor<'_, 'a>,
) -> Result<LineOrLater<'a>, Refusal>
    ensures { Gives (λ s. (line_or_later_of s, cursor.new)) result
        ((kept_statement keep (Lines version)).read cursor.old) }
{
    if cursor.is_keyword_next("line") {
        return Ok(LineOrLater::Line(line(version, cursor)?));
    }
    Ok(LineOrLater::Later(kept_end_or_node(alloc, keep, version, cursor)?))
}

/// Reads a definition, a line or an end of a program of a version, or a node; so much is kept of its lists of heaps and
/// of theirs.
pub fn kept_pred_or_later<'a>(
    alloc: Global,
    keep: Keep,
    version: Version,
    cursor: &mut Cursor<'_, 'a>,
) -> Result<PredOrLater<'a>, Refusal>
    ensures { Gives (λ s. (pred_or_later_of s, cursor.new)) result
        ((kept_statement keep (Preds version)).read cursor.old) }
{
    if cursor.is_keyword_next("pred") {
        return Ok(PredOrLater::Pred(kept_definition(alloc, keep, cursor)?));
    }
    Ok(PredOrLater::Later(kept_line_or_later(alloc, keep, version, cursor)?))
}

/// Reads a node, or the last statement; so much is kept of its lists of heaps and of theirs.
pub fn kept_node_or_last<'a>(
    alloc: Global,
    keep: Keep,
    cursor: &mut Cursor<'_, 'a>,
) -> Result<NodeOrLast<'a>, Refusal>
    ensures { Gives (λ s. (node_or_last_of s, cursor.new)) result ((kept_statement keep Nodes).read cursor.old) }
{
    if cursor.is_keyword_next("node") {
        return Ok(NodeOrLast::Node(kept_node(alloc, keep, cursor)?));
    }
    last_statement(cursor)?;
    Ok(NodeOrLast::Last)
}
