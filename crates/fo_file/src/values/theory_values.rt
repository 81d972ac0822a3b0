//! Theories that trees say.

ghost use Rattle.std.specs.Prelude.{◌≡◌, ◌<◌, length, map, IfOk};
ghost use Rattle.heap_formula.specs.Words.{Each};
ghost use Rattle.fo_syntax.specs.ProblemTrees.{atoms_of, constructor_of, definition_of};
ghost use Rattle.fo_file.specs.Known.{IsNarrow, AreKnownAtoms, IsKnownDefinition, IsKnownTheory};
ghost use Rattle.fo_file.specs.Values.{constructor_value, atoms_value, definition_value, theory_value};

use crate::values::atom_values::atoms;
use cyc_basics::memory::OutOfMemory;
use fo_formula::{
    Constructor, Constructors, DefName, FoCases, FoDefinition, FoDefinitions, FoTheory,
};
use fo_syntax::problems::{ConstructorTree, DefinitionTree};
use fo_syntax::terms::AtomTree;
use heap_reader::Heads;
use std::alloc::Global;

fn constructor(alloc: Global, tree: &ConstructorTree<'_>) -> Result<Constructor, OutOfMemory>
    requires { IsNarrow (constructor_of tree.now) }
    ensures { IfOk result (λ c. c ≡ constructor_value (constructor_of tree.now)) }
{
    let name = String::from_str(alloc, tree.name)?;
    Ok(Constructor {
        name: DefName::from_text(name),
        arguments: tree.arguments as u8,
    })
}

fn constructors(alloc: Global, trees: &[ConstructorTree<'_>]) -> Result<Constructors, OutOfMemory>
    requires { Each IsNarrow (map constructor_of trees.now) }
    ensures { IfOk result (λ cs. cs ≡ map constructor_value (map constructor_of trees.now)) }
{
    let mut constructors = Vec::with_capacity(alloc, trees.len())?;
    for tree in trees {
        constructors.push(constructor(alloc, tree)?)?;
    }
    Ok(Constructors::from_vec(constructors))
}

fn cases(
    alloc: Global,
    constructors: &Heads<'_>,
    predicates: &Heads<'_>,
    trees: &[Vec<AtomTree<'_>>],
) -> Result<FoCases, OutOfMemory>
    requires known { Each (AreKnownAtoms constructors.now predicates.now) (map atoms_of trees.now) }
    requires few { length constructors.now < 65536 }
    requires few_predicates { length predicates.now < 65536 }
    ensures { IfOk result (λ cs. cs ≡ map (atoms_value constructors.now predicates.now) (map atoms_of trees.now)) }
{
    let mut cases = Vec::with_capacity(alloc, trees.len())?;
    for tree in trees {
        cases.push(atoms(alloc, constructors, predicates, tree)?)?;
    }
    Ok(FoCases::from_vec(cases))
}

fn definition(
    alloc: Global,
    constructors: &Heads<'_>,
    predicates: &Heads<'_>,
    tree: &DefinitionTree<'_>,
) -> Result<FoDefinition, OutOfMemory>
    requires known { IsKnownDefinition constructors.now predicates.now (definition_of tree.now) }
    requires few { length constructors.now < 65536 }
    requires few_predicates { length predicates.now < 65536 }
    ensures { IfOk result (λ d. d ≡ definition_value constructors.now predicates.now (definition_of tree.now)) }
{
    let name = String::from_str(alloc, tree.name)?;
    let cases = cases(alloc, constructors, predicates, &tree.cases)?;
    Ok(FoDefinition {
        name: DefName::from_text(name),
        arity: tree.arity as u8,
        cases,
    })
}

fn definitions(
    alloc: Global,
    constructors: &Heads<'_>,
    predicates: &Heads<'_>,
    trees: &[DefinitionTree<'_>],
) -> Result<FoDefinitions, OutOfMemory>
    requires known { Each (IsKnownDefinition constructors.now predicates.now) (map definition_of trees.now) }
    requires few { length constructors.now < 65536 }
    requires few_predicates { length predicates.now < 65536 }
    ensures { IfOk result (λ ds. ds
        ≡ map (definition_value constructors.now predicates.now) (map definition_of trees.now)) }
{
    let mut definitions = Vec::with_capacity(alloc, trees.len())?;
    for tree in trees {
        definitions.push(definition(alloc, constructors, predicates, tree)?)?;
    }
    Ok(FoDefinitions::from_vec(definitions))
}

/// The theory that the trees of its constructors and its definitions say.
pub fn theory(
    alloc: Global,
    constructor_heads: &Heads<'_>,
    predicate_heads: &Heads<'_>,
    constructor_trees: &[ConstructorTree<'_>],
    definition_trees: &[DefinitionTree<'_>],
) -> Result<FoTheory, OutOfMemory>
    requires known { IsKnownTheory constructor_heads.now predicate_heads.now (map constructor_of constructor_trees.now)
        (map definition_of definition_trees.now) }
    requires few { length constructor_heads.now < 65536 }
    requires few_predicates { length predicate_heads.now < 65536 }
    ensures { IfOk result (λ t. t ≡ theory_value constructor_heads.now predicate_heads.now
        (map constructor_of constructor_trees.now) (map definition_of definition_trees.now)) }
{
    let constructors = constructors(alloc, constructor_trees)?;
    let definitions = definitions(alloc, constructor_heads, predicate_heads, definition_trees)?;
    Ok(FoTheory {
        constructors,
        definitions,
    })
}
