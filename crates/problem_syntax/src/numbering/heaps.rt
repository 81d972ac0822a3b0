//! Heaps with numbers in place of names.

ghost use Rattle.std.specs.Prelude.{◌≡◌, map, IfOk};
ghost use Rattle.heap_syntax.specs.Trees.{pure_of, spatial_of as spatial_tree_of};
ghost use Rattle.problem_syntax.specs.Trees as named;
ghost use Rattle.problem_syntax.specs.Trees.{named_of};
ghost use Rattle.problem_syntax.specs.Numbered.{spatial_of, heap_of};
ghost use Rattle.problem_syntax.specs.Numbering.{term as term_of, spatial as spatial_number, heap as heap_number};
ghost use Rattle.problem_syntax.specs.Views.{scope_of};

use crate::numbering::scope::{Scope, term};
use crate::numbering::tree::{NumberedHeap, NumberedTerm};
use crate::{HeapTree, NameTree};
use cyc_basics::memory::OutOfMemory;
use heap_syntax::{PureTree, SpatialTree};
use std::alloc::Global;

fn terms<'a>(
    alloc: Global,
    scope: &Scope<'_, 'a>,
    trees: &[NameTree<'a>],
) -> Result<Vec<NumberedTerm>, OutOfMemory>
    ensures { IfOk result (λ v. v.items ≡ map (term_of (scope_of scope.now)) (map named_of trees.now)) }
{
    let mut terms = Vec::with_capacity(alloc, trees.len())?;
    for tree in trees {
        terms.push(term(scope, *tree))?;
    }
    Ok(terms)
}

fn pure_atoms<'a>(
    alloc: Global,
    scope: &Scope<'_, 'a>,
    trees: &[PureTree<NameTree<'a>>],
) -> Result<Vec<PureTree<NumberedTerm>>, OutOfMemory>
    ensures { IfOk result (λ v. v.items
        ≡ map (pure_of (term_of (scope_of scope.now))) (map (pure_of named_of) trees.now)) }
{
    let mut atoms = Vec::with_capacity(alloc, trees.len())?;
    for tree in trees {
        atoms.push(PureTree {
            left: term(scope, tree.left),
            is_equation: tree.is_equation,
            right: term(scope, tree.right),
        })?;
    }
    Ok(atoms)
}

fn spatial_atom<'a>(
    alloc: Global,
    scope: &Scope<'_, 'a>,
    tree: &SpatialTree<'a, NameTree<'a>>,
) -> Result<SpatialTree<'a, NumberedTerm>, OutOfMemory>
    ensures { IfOk result (λ t. spatial_of t
        ≡ spatial_number (scope_of scope.now) (spatial_tree_of named_of tree.now)) }
{
    match tree {
        SpatialTree::Cell(address, fields) => {
            let fields = terms(alloc, scope, fields)?;
            Ok(SpatialTree::Cell(term(scope, *address), fields))
        }
        SpatialTree::Predicate(name, arguments) => {
            let arguments = terms(alloc, scope, arguments)?;
            Ok(SpatialTree::Predicate(name, arguments))
        }
    }
}

fn spatial_atoms<'a>(
    alloc: Global,
    scope: &Scope<'_, 'a>,
    trees: &[SpatialTree<'a, NameTree<'a>>],
) -> Result<Vec<SpatialTree<'a, NumberedTerm>>, OutOfMemory>
    ensures { IfOk result (λ v. map spatial_of v.items
        ≡ map (spatial_number (scope_of scope.now)) (map (spatial_tree_of named_of) trees.now)) }
{
    let mut atoms = Vec::with_capacity(alloc, trees.len())?;
    for tree in trees {
        atoms.push(spatial_atom(alloc, scope, tree)?)?;
    }
    Ok(atoms)
}

/// A heap whose names are numbered in a scope.
pub fn heap<'a>(
    alloc: Global,
    scope: &Scope<'_, 'a>,
    tree: &HeapTree<'a>,
) -> Result<NumberedHeap<'a>, OutOfMemory>
    ensures { IfOk result (λ h. heap_of h ≡ heap_number (scope_of scope.now) (named.heap_of tree.now)) }
{
    let pure = pure_atoms(alloc, scope, &tree.pure)?;
    let spatial = spatial_atoms(alloc, scope, &tree.spatial)?;
    Ok(NumberedHeap { pure, spatial })
}
