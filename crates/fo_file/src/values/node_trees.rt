//! Reasons and nodes as trees, with names borrowed from the theory.

ghost use Rattle.std.specs.Prelude.{◌≡◌, map, IfOk};
ghost use Rattle.fo_syntax.specs.ProofTrees.{entry_of, link_of, reason_of, node_of};
ghost use Rattle.fo_file.specs.Written.{side_tree, entry_tree, link_tree, rule_tree, reason_tree, node_tree};

use crate::values::atom_trees::{atom, sequent};
use crate::values::term_trees::{term, terms};
use cyc_basics::memory::OutOfMemory;
use fo_formula::{FoLink, FoNode, FoReason, FoRule, FoTheory, Side, Term};
use fo_syntax::proofs::{LinkTree, NodeTree, PairTree, ReasonTree, SideTree};
use std::alloc::Global;

fn side(value: Side) -> SideTree
    ensures { result ≡ side_tree value }
{
    match value {
        Side::Left => SideTree::Left,
        Side::Right => SideTree::Right,
    }
}

fn entries<'a>(
    alloc: Global,
    theory: &'a FoTheory,
    values: &[(u16, Term)],
) -> Result<Vec<PairTree<'a>>, OutOfMemory>
    ensures { IfOk result (λ v. map entry_of v.items ≡ map (entry_tree theory.now) values.now) }
{
    let mut trees = Vec::with_capacity(alloc, values.len())?;
    for (variable, value) in values {
        trees.push(PairTree {
            variable: u32::from(*variable),
            value: term(alloc, theory, value)?,
        })?;
    }
    Ok(trees)
}

fn link<'a>(
    alloc: Global,
    theory: &'a FoTheory,
    value: &FoLink,
) -> Result<LinkTree<'a>, OutOfMemory>
    ensures { IfOk result (λ l. link_of l ≡ link_tree theory.now value.now) }
{
    let substitution = entries(alloc, theory, value.substitution.as_slice())?;
    let left = Vec::from_slice(alloc, value.left_map.as_slice())?;
    let right = Vec::from_slice(alloc, value.right_map.as_slice())?;
    Ok(LinkTree {
        target: value.to,
        substitution,
        left,
        right,
    })
}

fn rule<'a>(
    alloc: Global,
    theory: &'a FoTheory,
    value: &FoRule,
) -> Result<ReasonTree<'a>, OutOfMemory>
    ensures { IfOk result (λ r. reason_of r ≡ rule_tree theory.now value.now) }
{
    Ok(match value {
        FoRule::Axiom { left, right } => ReasonTree::Axiom(*left, *right),
        FoRule::Refl(right) => ReasonTree::Refl(*right),
        FoRule::Clash(left) => ReasonTree::Clash(*left),
        FoRule::Decompose(left) => ReasonTree::Decompose(*left),
        FoRule::Replace { atom, side: named } => ReasonTree::Replace(*atom, side(*named)),
        FoRule::WeakenLeft(left) => ReasonTree::WeakenLeft(*left),
        FoRule::WeakenRight(right) => ReasonTree::WeakenRight(*right),
        FoRule::Contract(left) => ReasonTree::Contract(*left),
        FoRule::Unfold(left) => ReasonTree::Unfold(*left),
        FoRule::Cut(cut) => ReasonTree::Cut(atom(alloc, theory, cut)?),
        FoRule::Right {
            atom,
            case,
            terms: values,
        } => ReasonTree::Right(*atom, *case, terms(alloc, theory, values.as_slice())?),
    })
}

fn reason<'a>(
    alloc: Global,
    theory: &'a FoTheory,
    value: &FoReason,
) -> Result<ReasonTree<'a>, OutOfMemory>
    ensures { IfOk result (λ r. reason_of r ≡ reason_tree theory.now value.now) }
{
    match value {
        FoReason::Rule(value) => rule(alloc, theory, value),
        FoReason::Link(value) => Ok(ReasonTree::Link(link(alloc, theory, value)?)),
    }
}

fn node<'a>(
    alloc: Global,
    theory: &'a FoTheory,
    value: &FoNode,
) -> Result<NodeTree<'a>, OutOfMemory>
    ensures { IfOk result (λ n. node_of n ≡ node_tree theory.now value.now) }
{
    let sequent = sequent(alloc, theory, &value.judgement)?;
    let reason = reason(alloc, theory, &value.reason)?;
    let premises = Vec::from_slice(alloc, value.premises.as_slice())?;
    Ok(NodeTree {
        sequent,
        reason,
        premises,
    })
}

/// The trees of nodes, in order.
pub fn nodes<'a>(
    alloc: Global,
    theory: &'a FoTheory,
    values: &[FoNode],
) -> Result<Vec<NodeTree<'a>>, OutOfMemory>
    ensures { IfOk result (λ v. map node_of v.items ≡ map (node_tree theory.now) values.now) }
{
    let mut trees = Vec::with_capacity(alloc, values.len())?;
    for value in values {
        trees.push(node(alloc, theory, value)?)?;
    }
    Ok(trees)
}
