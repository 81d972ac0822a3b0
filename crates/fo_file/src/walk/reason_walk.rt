//! A walk over the reason of a node in the order of its tokens, up to the first flaw.

ghost use Rattle.std.specs.Prelude.{◌+◌, ◌<◌, ◌^◌, length, map, None};
ghost use Rattle.heap_formula.specs.Words.{Each};
ghost use Rattle.heap_reader.specs.Spans.{total, total_or};
ghost use Rattle.fo_syntax.specs.Trees.{atom_of};
ghost use Rattle.fo_syntax.specs.Grammar.{IsTerm};
ghost use Rattle.fo_syntax.specs.ProofTrees.{signs_of, entry_of, link_of, reason_of};
ghost use Rattle.fo_file.specs.declared.walk.flaw.Scope.TheVariants.{Node};
ghost use Rattle.fo_file.specs.AtomSpans.{atom_span, terms_in, IsAtom};
ghost use Rattle.fo_file.specs.AtomFlaws.{atom_flaw, IsWalkFrom};
ghost use Rattle.fo_file.specs.Parts.{IsEntry, IsReason};
ghost use Rattle.fo_file.specs.Spans.{term_span, entry_span, entry_terms, link_span, reason_span, reason_terms};
ghost use Rattle.fo_file.specs.Flaws.{terms_flaw, entry_flaw, entries_flaw, reason_flaw};
ghost use Rattle.fo_file.specs.Answers.{IsPassed};

use crate::walk::atom_walk::walk_atom;
use crate::walk::flaw::{Reached, Scope, Stop};
use crate::walk::known::Names;
use crate::walk::term_walk::walk_term;
use cyc_basics::limits::GREATEST_VARIABLE;
use cyc_lex::What;
use fo_syntax::proofs::{LinkTree, PairTree, ReasonTree};
use fo_syntax::terms::{AtomTree, SignTree};
use heap_reader::{Heads, over};
use std::alloc::Global;

fn walk_some_terms(
    alloc: Global,
    constructors: &Heads<'_>,
    from: Reached,
    trees: &[Vec<SignTree<'_>>],
) -> Result<Reached, Stop>
    requires are { Each IsTerm (map signs_of trees.now) }
    requires tokens { from.token + total term_span (map signs_of trees.now) < 2 ^ 64 }
    requires terms { from.terms + total length (map signs_of trees.now) < 2 ^ 64 }
    ensures { IsWalkFrom from result (λ m k. terms_flaw constructors.now m k (map signs_of trees.now))
        (total term_span (map signs_of trees.now)) (total length (map signs_of trees.now)) }
{
    let mut reached = from;
    for tree in trees {
        let behind = walk_term(alloc, constructors, Scope::Node, None, reached, tree)?;
        reached = behind.advanced(1);
    }
    Ok(reached)
}

/// Terms and the closing bracket.
fn walk_terms(
    alloc: Global,
    constructors: &Heads<'_>,
    from: Reached,
    trees: &[Vec<SignTree<'_>>],
) -> Result<usize, Stop>
    requires are { Each IsTerm (map signs_of trees.now) }
    requires tokens { from.token + total_or 1 term_span (map signs_of trees.now) < 2 ^ 64 }
    requires terms { from.terms + total length (map signs_of trees.now) < 2 ^ 64 }
    ensures { IsPassed result (terms_flaw constructors.now from.terms from.token (map signs_of trees.now))
        (from.token + total_or 1 term_span (map signs_of trees.now)) }
{
    if trees.is_empty() {
        return Ok(from.token + 1);
    }
    let behind = walk_some_terms(alloc, constructors, from, trees)?;
    Ok(behind.token)
}

fn walk_entry(
    alloc: Global,
    constructors: &Heads<'_>,
    from: Reached,
    tree: &PairTree<'_>,
) -> Result<Reached, Stop>
    requires is { IsEntry (entry_of tree.now) }
    requires tokens { from.token + entry_span (entry_of tree.now) < 2 ^ 64 }
    requires terms { from.terms + entry_terms (entry_of tree.now) < 2 ^ 64 }
    ensures { IsWalkFrom from result (λ m k. entry_flaw constructors.now m k (entry_of tree.now))
        (entry_span (entry_of tree.now)) (entry_terms (entry_of tree.now)) }
{
    if tree.variable > GREATEST_VARIABLE {
        return Err(Stop::Flaw(over(What::Variable, from.token + 1)));
    }
    let behind = walk_term(
        alloc,
        constructors,
        Scope::Node,
        None,
        from.advanced(3),
        &tree.value,
    )?;
    Ok(behind.advanced(1))
}

fn walk_some_entries(
    alloc: Global,
    constructors: &Heads<'_>,
    from: Reached,
    trees: &[PairTree<'_>],
) -> Result<Reached, Stop>
    requires are { Each IsEntry (map entry_of trees.now) }
    requires tokens { from.token + total entry_span (map entry_of trees.now) < 2 ^ 64 }
    requires terms { from.terms + total entry_terms (map entry_of trees.now) < 2 ^ 64 }
    ensures { IsWalkFrom from result (λ m k. entries_flaw constructors.now m k (map entry_of trees.now))
        (total entry_span (map entry_of trees.now)) (total entry_terms (map entry_of trees.now)) }
{
    let mut reached = from;
    for tree in trees {
        reached = walk_entry(alloc, constructors, reached, tree)?;
    }
    Ok(reached)
}

/// The entries of a substitution and the closing brace.
fn walk_entries(
    alloc: Global,
    constructors: &Heads<'_>,
    from: Reached,
    trees: &[PairTree<'_>],
) -> Result<usize, Stop>
    requires are { Each IsEntry (map entry_of trees.now) }
    requires tokens { from.token + total_or 1 entry_span (map entry_of trees.now) < 2 ^ 64 }
    requires terms { from.terms + total entry_terms (map entry_of trees.now) < 2 ^ 64 }
    ensures { IsPassed result (entries_flaw constructors.now from.terms from.token (map entry_of trees.now))
        (from.token + total_or 1 entry_span (map entry_of trees.now)) }
{
    if trees.is_empty() {
        return Ok(from.token + 1);
    }
    let behind = walk_some_entries(alloc, constructors, from, trees)?;
    Ok(behind.token)
}

fn walk_link(
    alloc: Global,
    constructors: &Heads<'_>,
    from: Reached,
    tree: &LinkTree<'_>,
) -> Result<usize, Stop>
    requires are { Each IsEntry (link_of tree.now).substitution }
    requires tokens { from.token + link_span (link_of tree.now) < 2 ^ 64 }
    requires terms { from.terms + total entry_terms (link_of tree.now).substitution < 2 ^ 64 }
    ensures { IsPassed result
        (entries_flaw constructors.now from.terms (from.token + 2) (link_of tree.now).substitution)
        (from.token + link_span (link_of tree.now)) }
{
    let behind = walk_entries(alloc, constructors, from.advanced(2), &tree.substitution)?;
    Ok(behind + 1 + tree.left.len() + 1 + 1 + tree.right.len() + 1)
}

fn walk_cut(
    alloc: Global,
    names: &Names<'_>,
    from: Reached,
    tree: &AtomTree<'_>,
) -> Result<usize, Stop>
    requires is { IsAtom (atom_of tree.now) }
    requires tokens { from.token + atom_span (atom_of tree.now) < 2 ^ 64 }
    requires terms { from.terms + terms_in (atom_of tree.now) < 2 ^ 64 }
    ensures { IsPassed result
        (atom_flaw names.now.constructors Node names.now.predicates from.terms from.token None (atom_of tree.now))
        (from.token + atom_span (atom_of tree.now)) }
{
    let behind = walk_atom(
        alloc,
        &names.constructors,
        &names.predicates,
        Scope::Node,
        None,
        from,
        tree,
    )?;
    Ok(behind.token)
}

/// The reason of a node and the token after it.
pub fn walk_reason(
    alloc: Global,
    names: &Names<'_>,
    from: Reached,
    tree: &ReasonTree<'_>,
) -> Result<usize, Stop>
    requires is { IsReason (reason_of tree.now) }
    requires tokens { from.token + reason_span (reason_of tree.now) < 2 ^ 64 }
    requires terms { from.terms + reason_terms (reason_of tree.now) < 2 ^ 64 }
    ensures { IsPassed result
        (reason_flaw names.now.constructors names.now.predicates from.terms from.token (reason_of tree.now))
        (from.token + reason_span (reason_of tree.now)) }
{
    match tree {
        ReasonTree::Axiom(_, _) | ReasonTree::Replace(_, _) => Ok(from.token + 4),
        ReasonTree::Refl(_)
        | ReasonTree::Clash(_)
        | ReasonTree::Decompose(_)
        | ReasonTree::WeakenLeft(_)
        | ReasonTree::WeakenRight(_)
        | ReasonTree::Contract(_)
        | ReasonTree::Unfold(_) => Ok(from.token + 3),
        ReasonTree::Cut(atom) => walk_cut(alloc, names, from.advanced(1), atom),
        ReasonTree::Right(_, _, terms) => {
            let behind = walk_terms(alloc, &names.constructors, from.advanced(4), terms)?;
            Ok(behind + 1)
        }
        ReasonTree::Link(link) => {
            let behind = walk_link(alloc, &names.constructors, from.advanced(1), link)?;
            Ok(behind + 1)
        }
    }
}
