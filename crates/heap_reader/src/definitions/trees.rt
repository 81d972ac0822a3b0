// Heaps and definitions as trees, with the names of predicates borrowed from the definitions.
ghost use Rattle.std.specs.Prelude.{◌≡◌, map, IfOk};
ghost use Rattle.heap_syntax.specs.DefinitionTrees.{spatial_of, heap_of, definition_of};
ghost use Rattle.heap_reader.specs.Written.{term_tree as tree_of_term, pure_tree, name_of as name_of_predicate};
ghost use Rattle.heap_reader.specs.Written.{spatial_tree, heap_tree as tree_of_heap, definition_tree};

use cyc_basics::memory::OutOfMemory;
use heap_formula::{Def, Heap, Pure, Spatial, Term};
use heap_syntax::definitions::{DefinitionTree, HeapTree, PureTree, SpatialTree, TermTree};
use std::alloc::Global;

/// The tree of a term.
pub fn term_tree(value: Term) -> TermTree
    ensures { result ≡ tree_of_term value }
{
    match value {
        Term::Nil => TermTree::Nil,
        Term::Univ(n) => TermTree::Univ(u32::from(n)),
        Term::Exist(n) => TermTree::Exist(u32::from(n)),
    }
}

fn terms(alloc: Global, values: &[Term]) -> Result<Vec<TermTree>, OutOfMemory>
    ensures { IfOk result (λ v. v.items ≡ map tree_of_term values.now) }
{
    let mut trees = Vec::with_capacity(alloc, values.len())?;
    for value in values {
        trees.push(term_tree(*value))?;
    }
    Ok(trees)
}

fn pure_atom(value: Pure) -> PureTree
    ensures { result ≡ pure_tree value }
{
    let (left, is_equation, right) = match value {
        Pure::Eq(left, right) => (left, true, right),
        Pure::Neq(left, right) => (left, false, right),
    };
    PureTree {
        left: term_tree(left),
        is_equation,
        right: term_tree(right),
    }
}

fn pure_atoms(alloc: Global, values: &[Pure]) -> Result<Vec<PureTree>, OutOfMemory>
    ensures { IfOk result (λ v. v.items ≡ map pure_tree values.now) }
{
    let mut trees = Vec::with_capacity(alloc, values.len())?;
    for value in values {
        trees.push(pure_atom(*value))?;
    }
    Ok(trees)
}

/// The name of the predicate with this number, empty where there is none.
fn name_of(defs: &[Def], pred: u16) -> &str
    ensures { result.now ≡ name_of_predicate defs.now pred }
{
    match defs.get(pred as usize) {
        Some(def) => def.name.as_text(),
        None => "",
    }
}

fn spatial_atom<'a>(
    alloc: Global,
    defs: &'a [Def],
    value: &Spatial,
) -> Result<SpatialTree<'a>, OutOfMemory>
    ensures { IfOk result (λ t. spatial_of t ≡ spatial_tree defs.now value.now) }
{
    match value {
        Spatial::Cell(address, fields) => {
            let fields = terms(alloc, fields.as_slice())?;
            Ok(SpatialTree::Cell(term_tree(*address), fields))
        }
        Spatial::Pred(pred, args) => {
            let args = terms(alloc, args.as_slice())?;
            Ok(SpatialTree::Predicate(name_of(defs, *pred), args))
        }
    }
}

fn spatial_atoms<'a>(
    alloc: Global,
    defs: &'a [Def],
    values: &[Spatial],
) -> Result<Vec<SpatialTree<'a>>, OutOfMemory>
    ensures { IfOk result (λ v. map spatial_of v.items ≡ map (spatial_tree defs.now) values.now) }
{
    let mut trees = Vec::with_capacity(alloc, values.len())?;
    for value in values {
        trees.push(spatial_atom(alloc, defs, value)?)?;
    }
    Ok(trees)
}

/// The tree of a heap, with the names of predicates borrowed from the definitions.
pub fn heap_tree<'a>(
    alloc: Global,
    defs: &'a [Def],
    value: &Heap,
) -> Result<HeapTree<'a>, OutOfMemory>
    ensures { IfOk result (λ h. heap_of h ≡ tree_of_heap defs.now value.now) }
{
    let pure = pure_atoms(alloc, value.pure())?;
    let spatial = spatial_atoms(alloc, defs, value.spatial())?;
    Ok(HeapTree { pure, spatial })
}

/// The trees of heaps, in order.
pub fn heap_trees<'a>(
    alloc: Global,
    defs: &'a [Def],
    values: &[Heap],
) -> Result<Vec<HeapTree<'a>>, OutOfMemory>
    ensures { IfOk result (λ v. map heap_of v.items ≡ map (tree_of_heap defs.now) values.now) }
{
    let mut trees = Vec::with_capacity(alloc, values.len())?;
    for value in values {
        trees.push(heap_tree(alloc, defs, value)?)?;
    }
    Ok(trees)
}

fn definition<'a>(
    alloc: Global,
    defs: &'a [Def],
    value: &'a Def,
) -> Result<DefinitionTree<'a>, OutOfMemory>
    ensures { IfOk result (λ d. definition_of d ≡ definition_tree defs.now value.now) }
{
    let cases = heap_trees(alloc, defs, value.cases.heaps())?;
    Ok(DefinitionTree {
        name: value.name.as_text(),
        arity: value.arity,
        cases,
    })
}

/// The trees of definitions, in order.
pub fn definition_trees<'a>(
    alloc: Global,
    defs: &'a [Def],
) -> Result<Vec<DefinitionTree<'a>>, OutOfMemory>
    ensures { IfOk result (λ v. map definition_of v.items ≡ map (definition_tree defs.now) defs.now) }
{
    let mut trees = Vec::with_capacity(alloc, defs.len())?;
    for value in defs {
        trees.push(definition(alloc, defs, value)?)?;
    }
    Ok(trees)
}
