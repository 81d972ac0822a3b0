//! Theories as trees, with names borrowed from the theory.

ghost use Rattle.std.specs.Prelude.{◌≡◌, map, IfOk};
ghost use Rattle.fo_syntax.specs.ProblemTrees.{atoms_of, constructor_of, definition_of};
ghost use Rattle.fo_file.specs.Written.{constructor_tree, atoms_tree, definition_tree};

use crate::values::atom_trees::atoms;
use cyc_basics::memory::OutOfMemory;
use fo_formula::{Constructor, FoAtoms, FoDefinition, FoTheory};
use fo_syntax::problems::{ConstructorTree, DefinitionTree};
use fo_syntax::terms::AtomTree;
use std::alloc::Global;

fn constructor(value: &Constructor) -> ConstructorTree<'_>
    ensures { constructor_of result ≡ constructor_tree value.now }
{
    ConstructorTree {
        name: value.name.as_text(),
        arguments: u32::from(value.arguments),
    }
}

/// The trees of a theory's constructors, in order.
pub fn constructors<'a>(
    alloc: Global,
    theory: &'a FoTheory,
) -> Result<Vec<ConstructorTree<'a>>, OutOfMemory>
    ensures { IfOk result (λ v. map constructor_of v.items ≡ map constructor_tree theory.now.constructors) }
{
    let values = theory.constructors.as_slice();
    let mut trees = Vec::with_capacity(alloc, values.len())?;
    for value in values {
        trees.push(constructor(value))?;
    }
    Ok(trees)
}

fn cases<'a>(
    alloc: Global,
    theory: &'a FoTheory,
    values: &[FoAtoms],
) -> Result<Vec<Vec<AtomTree<'a>>>, OutOfMemory>
    ensures { IfOk result (λ v. map atoms_of v.items ≡ map (atoms_tree theory.now) values.now) }
{
    let mut trees = Vec::with_capacity(alloc, values.len())?;
    for value in values {
        trees.push(atoms(alloc, theory, value)?)?;
    }
    Ok(trees)
}

fn definition<'a>(
    alloc: Global,
    theory: &'a FoTheory,
    value: &'a FoDefinition,
) -> Result<DefinitionTree<'a>, OutOfMemory>
    ensures { IfOk result (λ t. definition_of t ≡ definition_tree theory.now value.now) }
{
    let cases = cases(alloc, theory, value.cases.as_slice())?;
    Ok(DefinitionTree {
        name: value.name.as_text(),
        arity: u32::from(value.arity),
        cases,
    })
}

/// The trees of a theory's definitions, in order.
pub fn definitions<'a>(
    alloc: Global,
    theory: &'a FoTheory,
) -> Result<Vec<DefinitionTree<'a>>, OutOfMemory>
    ensures { IfOk result (λ v. map definition_of v.items ≡ map (definition_tree theory.now) theory.now.definitions) }
{
    let values = theory.definitions.as_slice();
    let mut trees = Vec::with_capacity(alloc, values.len())?;
    for value in values {
        trees.push(definition(alloc, theory, value)?)?;
    }
    Ok(trees)
}
