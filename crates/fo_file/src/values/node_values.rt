//! Reasons and nodes that trees say.

ghost use Rattle.std.specs.Prelude.{◌≡◌, ◌<◌, length, map, IfOk};
ghost use Rattle.heap_formula.specs.Words.{Each};
ghost use Rattle.fo_syntax.specs.ProofTrees.{entry_of, link_of, reason_of, node_of};
ghost use Rattle.fo_file.specs.Known.{IsKnownEntry, IsKnownReason, IsKnownNode};
ghost use Rattle.fo_file.specs.Values.{entry_value, link_value, side_value, reason_value, node_value};

use crate::values::atom_values::{atom, sequent};
use crate::values::term_values::{listed_terms, term};
use cyc_basics::memory::OutOfMemory;
use fo_formula::{FoLink, FoNode, FoNodes, FoReason, FoRule, FoSubst, Positions, Side};
use fo_syntax::proofs::{LinkTree, NodeTree, PairTree, ReasonTree, SideTree};
use heap_reader::Heads;
use logics::Numbers;
use std::alloc::Global;

fn side(tree: SideTree) -> Side
    ensures { result ≡ side_value tree }
{
    match tree {
        SideTree::Left => Side::Left,
        SideTree::Right => Side::Right,
    }
}

fn positions(alloc: Global, numbers: &[u32]) -> Result<Positions, OutOfMemory>
    ensures { IfOk result (λ p. p ≡ numbers.now) }
{
    Ok(Positions::from_vec(Vec::from_slice(alloc, numbers)?))
}

fn substitution(
    alloc: Global,
    constructors: &Heads<'_>,
    trees: &[PairTree<'_>],
) -> Result<FoSubst, OutOfMemory>
    requires known { Each (IsKnownEntry constructors.now) (map entry_of trees.now) }
    requires few { length constructors.now < 65536 }
    ensures { IfOk result (λ s. s ≡ map (entry_value constructors.now) (map entry_of trees.now)) }
{
    let mut pairs = Vec::with_capacity(alloc, trees.len())?;
    for tree in trees {
        pairs.push((
            tree.variable as u16,
            term(alloc, constructors, &tree.value)?,
        ))?;
    }
    Ok(FoSubst::from_vec(pairs))
}

fn link(alloc: Global, constructors: &Heads<'_>, tree: &LinkTree<'_>) -> Result<FoLink, OutOfMemory>
    requires known { Each (IsKnownEntry constructors.now) (link_of tree.now).substitution }
    requires few { length constructors.now < 65536 }
    ensures { IfOk result (λ l. l ≡ link_value constructors.now (link_of tree.now)) }
{
    let substitution = substitution(alloc, constructors, &tree.substitution)?;
    let left_map = positions(alloc, &tree.left)?;
    let right_map = positions(alloc, &tree.right)?;
    Ok(FoLink {
        to: tree.target,
        substitution,
        left_map,
        right_map,
    })
}

fn reason(
    alloc: Global,
    constructors: &Heads<'_>,
    predicates: &Heads<'_>,
    tree: &ReasonTree<'_>,
) -> Result<FoReason, OutOfMemory>
    requires known { IsKnownReason constructors.now predicates.now (reason_of tree.now) }
    requires few { length constructors.now < 65536 }
    requires few_predicates { length predicates.now < 65536 }
    ensures { IfOk result (λ r. r ≡ reason_value constructors.now predicates.now (reason_of tree.now)) }
{
    let rule = match tree {
        ReasonTree::Link(tree) => return Ok(FoReason::Link(link(alloc, constructors, tree)?)),
        ReasonTree::Cut(tree) => FoRule::Cut(atom(alloc, constructors, predicates, tree)?),
        ReasonTree::Right(atom, case, trees) => {
            FoRule::Right {
                atom: *atom,
                case: *case,
                terms: listed_terms(alloc, constructors, trees)?,
            }
        }
        ReasonTree::Axiom(left, right) => FoRule::Axiom {
            left: *left,
            right: *right,
        },
        ReasonTree::Refl(right) => FoRule::Refl(*right),
        ReasonTree::Clash(left) => FoRule::Clash(*left),
        ReasonTree::Decompose(left) => FoRule::Decompose(*left),
        ReasonTree::Replace(atom, named) => FoRule::Replace {
            atom: *atom,
            side: side(*named),
        },
        ReasonTree::WeakenLeft(left) => FoRule::WeakenLeft(*left),
        ReasonTree::WeakenRight(right) => FoRule::WeakenRight(*right),
        ReasonTree::Contract(left) => FoRule::Contract(*left),
        ReasonTree::Unfold(left) => FoRule::Unfold(*left),
    };
    Ok(FoReason::Rule(rule))
}

fn node(
    alloc: Global,
    constructors: &Heads<'_>,
    predicates: &Heads<'_>,
    tree: &NodeTree<'_>,
) -> Result<FoNode, OutOfMemory>
    requires known { IsKnownNode constructors.now predicates.now (node_of tree.now) }
    requires few { length constructors.now < 65536 }
    requires few_predicates { length predicates.now < 65536 }
    ensures { IfOk result (λ n. n ≡ node_value constructors.now predicates.now (node_of tree.now)) }
{
    let judgement = sequent(alloc, constructors, predicates, &tree.sequent)?;
    let reason = reason(alloc, constructors, predicates, &tree.reason)?;
    let premises = Numbers::from_vec(Vec::from_slice(alloc, &tree.premises)?);
    Ok(FoNode {
        judgement,
        reason,
        premises,
    })
}

/// The nodes that trees say, in order.
pub fn nodes(
    alloc: Global,
    constructors: &Heads<'_>,
    predicates: &Heads<'_>,
    trees: &[NodeTree<'_>],
) -> Result<FoNodes, OutOfMemory>
    requires known { Each (IsKnownNode constructors.now predicates.now) (map node_of trees.now) }
    requires few { length constructors.now < 65536 }
    requires few_predicates { length predicates.now < 65536 }
    ensures { IfOk result (λ ns. ns ≡ map (node_value constructors.now predicates.now) (map node_of trees.now)) }
{
    let mut nodes = Vec::with_capacity(alloc, trees.len())?;
    for tree in trees {
        nodes.push(node(alloc, constructors, predicates, tree)?)?;
    }
    Ok(FoNodes::from_vec(nodes))
}
