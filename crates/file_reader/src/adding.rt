//! A statement as it comes: the value of a node, or its first flaw; or the last statement.

ghost use Rattle.std.specs.Prelude.{◌≡◌, ◌≤◌, ◌+◌, ◌-◌, IfOk, None, Ok, false, length, map, take};
ghost use Rattle.cyc_lex.specs.Word.{word_of};
ghost use Rattle.cyc_basics.specs.declared.limits.TheConstants.{MOST_PREDICATES};
ghost use Rattle.proof_syntax.specs.Grammar.{node};
ghost use Rattle.proof_syntax.specs.Trees.{node_of};
ghost use Rattle.proof_syntax.specs.Left.{Nodes, kept_statement};
ghost use Rattle.proof_syntax.specs.StatementTrees.{node_or_last_of};
ghost use Rattle.proof_file.specs.Spans.{node_span};
ghost use Rattle.file_reader.specs.Fronts.{kept};
ghost use Rattle.file_reader.specs.Stretches.{IsStretch, tokens_of};
ghost use Rattle.file_reader.specs.Knowns.{IsAdded, IsHeads, IsSteady};
ghost use Rattle.file_reader.specs.Runs.{IsStepTaken};
ghost use Rattle.file_reader.specs.Lasts.{StandsIn, left_from};

use crate::known::{Found, KnownFront};
use crate::stretch::Stretch;
use cyc_grammar::Cursor;
use cyc_lex::OutOfMemory;
use heap_reader::Heads;
use proof_file::{NodeFault, node_of_tree};
use proof_syntax::NodeTree;
use proof_syntax::statements::NodeOrLast;
use std::alloc::Global;

/// Finds what the next node says, whose tokens are some of these. After a flaw no value is made or held.
pub fn add_node(
    alloc: Global,
    known: &KnownFront,
    heads: &Heads<'_>,
    stretch: Stretch<'_>,
    tree: &NodeTree<'_>,
    found: &mut Found,
) -> Result<(), OutOfMemory>
    requires stretch { IsStretch stretch }
    requires few { found.old.flaw ≡ None → length heads.now ≤ MOST_PREDICATES }
    requires fits { node.fits (node_of tree.now) }
    requires later { stretch.before ≤ found.old.tokens }
    requires within { found.old.tokens + node_span (node_of tree.now) ≤ stretch.before + stretch.count }
    ensures { IfOk result (λ _. IsAdded known.now heads.now stretch.entry.before (tokens_of stretch.entry)
        (node_of tree.now) found.old found.new) }
{
    if found.flaw.is_some() {
        return Ok(());
    }
    let (n, at) = (found.nodes.len(), found.tokens as usize);
    match node_of_tree(alloc, heads, known.version, known.lines, n, at, tree) {
        Ok(node) => {
            found.nodes.push(node)?;
            Ok(())
        }
        Err(NodeFault::Flaw(flaw)) => {
            found.flaw = Some(stretch.flaw(flaw));
            found.nodes = Vec::new(alloc);
            Ok(())
        }
        Err(NodeFault::OutOfMemory) => Err(OutOfMemory),
    }
}

/// Takes a node, or the last statement, which was read of the next of these tokens up to the cursor.
pub fn add_statement(
    alloc: Global,
    known: &KnownFront,
    heads: &Heads<'_>,
    stretch: Stretch<'_>,
    statement: &NodeOrLast<'_>,
    cursor: &Cursor<'_, '_>,
    found: &mut Found,
) -> Result<(), OutOfMemory>
    requires stretch { IsStretch stretch }
    requires heads { IsHeads known.now heads.now }
    requires steady { IsSteady known.now found.old }
    requires going { found.old.ended ≡ false }
    requires later { stretch.before ≤ found.old.tokens }
    requires within { found.old.tokens ≤ stretch.before + stretch.count }
    requires read { (kept_statement kept Nodes).read (map word_of (left_from stretch found.old.tokens))
        ≡ Ok (node_or_last_of statement.now, cursor.now) }
    ensures taken { IfOk result (λ _. IsStepTaken known.now
        (take (found.new.tokens - found.old.tokens) (left_from stretch.entry found.old.tokens)) found.old found.new) }
    ensures stands { IfOk result (λ _. StandsIn stretch.entry found.new.tokens cursor.now) }
{
    let tokens = stretch.before + (stretch.count - cursor.left()) as u32;
    match statement {
        NodeOrLast::Node(tree) => {
            add_node(alloc, known, heads, stretch, tree, found)?;
            found.tokens = tokens;
            Ok(())
        }
        NodeOrLast::Last => {
            found.tokens = tokens;
            found.ended = true;
            Ok(())
        }
    }
}
