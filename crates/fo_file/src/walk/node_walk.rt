//! A walk over sequents and nodes in the order of their tokens, up to the first flaw.

ghost use Rattle.std.specs.Prelude.{◌≡◌, ◌+◌, ◌<◌, ◌^◌, map, None};
ghost use Rattle.heap_formula.specs.Words.{Each};
ghost use Rattle.heap_reader.specs.Spans.{total, premises_rest};
ghost use Rattle.fo_syntax.specs.Trees.{atom_of};
ghost use Rattle.fo_syntax.specs.ProblemTrees.{sequent_of};
ghost use Rattle.fo_syntax.specs.ProofTrees.{node_of};
ghost use Rattle.fo_file.specs.declared.walk.flaw.Scope.TheVariants.{Node};
ghost use Rattle.fo_file.specs.AtomSpans.{atoms_span, total_terms, AreAtoms};
ghost use Rattle.fo_file.specs.AtomFlaws.{side_flaw, IsWalk, IsWalkFrom};
ghost use Rattle.fo_file.specs.Parts.{IsSequent, IsNode};
ghost use Rattle.fo_file.specs.Spans.{sequent_span, sequent_terms, node_span};
ghost use Rattle.fo_file.specs.Flaws.{sequent_flaw, node_flaw, nodes_flaw};
ghost use Rattle.fo_file.specs.Answers.{IsPassed};

use crate::walk::atom_walk::walk_atoms;
use crate::walk::flaw::{Reached, Scope, Stop};
use crate::walk::known::Names;
use crate::walk::reason_walk::walk_reason;
use cyc_basics::limits::{MOST_LEFT, MOST_NODES, MOST_RIGHT};
use cyc_lex::What;
use fo_syntax::problems::SequentTree;
use fo_syntax::proofs::NodeTree;
use fo_syntax::terms::AtomTree;
use heap_reader::over;
use std::alloc::Global;

/// A side of a sequent, of at most so many atoms, and the token after it.
fn walk_side(
    alloc: Global,
    names: &Names<'_>,
    most: usize,
    from: Reached,
    trees: &[AtomTree<'_>],
) -> Result<Reached, Stop>
    requires are { AreAtoms (map atom_of trees.now) }
    requires tokens { from.token + atoms_span (map atom_of trees.now) < 2 ^ 64 }
    requires terms { from.terms + total_terms (map atom_of trees.now) < 2 ^ 64 }
    ensures { IsWalkFrom from result
        (λ m k. side_flaw names.now.constructors Node names.now.predicates most m k None (map atom_of trees.now))
        (atoms_span (map atom_of trees.now)) (total_terms (map atom_of trees.now)) }
{
    walk_atoms(
        alloc,
        &names.constructors,
        &names.predicates,
        Scope::Node,
        most,
        None,
        from,
        trees,
    )
}

/// A sequent and the token after it, with the number of its terms.
pub fn walk_sequent(
    alloc: Global,
    names: &Names<'_>,
    at: usize,
    tree: &SequentTree<'_>,
) -> Result<Reached, Stop>
    requires is { IsSequent (sequent_of tree.now) }
    requires fits { at + sequent_span (sequent_of tree.now) < 2 ^ 64 }
    ensures { IsWalk result (sequent_flaw names.now.constructors names.now.predicates at (sequent_of tree.now))
        (at + sequent_span (sequent_of tree.now)) (sequent_terms (sequent_of tree.now)) }
{
    let from = Reached {
        token: at,
        terms: 0,
    };
    let middle = walk_side(alloc, names, MOST_LEFT, from, &tree.left)?;
    walk_side(alloc, names, MOST_RIGHT, middle, &tree.right)
}

/// The token after the premises, which stand after the token of this number.
fn behind_premises(at: usize, premises: &[u32]) -> usize
    requires { at + premises_rest premises.now < 2 ^ 64 }
    ensures { result ≡ at + premises_rest premises.now }
{
    if premises.is_empty() {
        return at;
    }
    at + premises.len() + 1
}

/// A node before which n of all stand.
fn walk_node(
    alloc: Global,
    names: &Names<'_>,
    n: usize,
    at: usize,
    tree: &NodeTree<'_>,
) -> Result<usize, Stop>
    requires is { IsNode (node_of tree.now) }
    requires fits { at + node_span (node_of tree.now) < 2 ^ 64 }
    ensures { IsPassed result (node_flaw names.now.constructors names.now.predicates n at (node_of tree.now))
        (at + node_span (node_of tree.now)) }
{
    if n >= MOST_NODES {
        return Err(Stop::Flaw(over(What::Nodes, at)));
    }
    let reached = walk_sequent(alloc, names, at + 1, &tree.sequent)?;
    let behind = walk_reason(alloc, names, reached, &tree.reason)?;
    Ok(behind_premises(behind, &tree.premises))
}

/// The nodes of a proof, the first of which begins at a token.
pub fn walk_nodes(
    alloc: Global,
    names: &Names<'_>,
    at: usize,
    trees: &[NodeTree<'_>],
) -> Result<usize, Stop>
    requires are { Each IsNode (map node_of trees.now) }
    requires fits { at + total node_span (map node_of trees.now) < 2 ^ 64 }
    ensures { IsPassed result (nodes_flaw names.now.constructors names.now.predicates at (map node_of trees.now))
        (at + total node_span (map node_of trees.now)) }
{
    let mut next = at;
    for (n, tree) in trees.iter().enumerate() {
        next = walk_node(alloc, names, n, next, tree)?;
    }
    Ok(next)
}
