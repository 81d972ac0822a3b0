//! Definitions with numbers in place of names.

ghost use Rattle.std.specs.Prelude.{◌≡◌, map, IfOk};
ghost use Rattle.problem_syntax.specs.Trees as named;
ghost use Rattle.problem_syntax.specs.Trees.{text_of};
ghost use Rattle.problem_syntax.specs.Occurrences.{plain};
ghost use Rattle.problem_syntax.specs.Numbered.{heap_of, definition_of};
ghost use Rattle.problem_syntax.specs.Numbering.{locals as locals_of, case as case_number};
ghost use Rattle.problem_syntax.specs.Numbering.{definition as definition_number};
ghost use Rattle.problem_syntax.specs.Views.{name_of, names_of};

use crate::numbering::heaps::heap;
use crate::numbering::names::{NameUse, Names, first_names};
use crate::numbering::occurrences::{heap_names, local_names};
use crate::numbering::scope::Scope;
use crate::numbering::tree::{NumberedDefinition, NumberedHeap};
use crate::{DefinitionTree, HeapTree};
use cyc_basics::memory::OutOfMemory;
use std::alloc::Global;

/// The locals of a case of a predicate with these parameters.
#[tactic(auto, unfolding(crate::specs::Numbering::locals))]
fn locals<'a>(
    alloc: Global,
    parameters: &Names<'a>,
    tree: &HeapTree<'a>,
) -> Result<Names<'a>, OutOfMemory>
    ensures { IfOk result (λ n. names_of n ≡ locals_of (names_of parameters.now) (named.heap_of tree.now)) }
{
    let uses = heap_names(alloc, tree)?;
    first_names(alloc, &local_names(alloc, parameters, &uses)?)
}

/// A case of a predicate with these parameters.
#[tactic(auto, unfolding(crate::specs::Numbering::case))]
fn case<'a>(
    alloc: Global,
    parameters: &Names<'a>,
    tree: &HeapTree<'a>,
) -> Result<NumberedHeap<'a>, OutOfMemory>
    ensures { IfOk result (λ h. heap_of h ≡ case_number (names_of parameters.now) (named.heap_of tree.now)) }
{
    let locals = locals(alloc, parameters, tree)?;
    heap(alloc, &Scope::Case(parameters, &locals), tree)
}

fn cases<'a>(
    alloc: Global,
    parameters: &Names<'a>,
    trees: &[HeapTree<'a>],
) -> Result<Vec<NumberedHeap<'a>>, OutOfMemory>
    ensures { IfOk result (λ v. map heap_of v.items
        ≡ map (case_number (names_of parameters.now)) (map named.heap_of trees.now)) }
{
    let mut cases = Vec::with_capacity(alloc, trees.len())?;
    for tree in trees {
        cases.push(case(alloc, parameters, tree)?)?;
    }
    Ok(cases)
}

fn parameter_names<'a>(alloc: Global, texts: &[&'a str]) -> Result<Vec<NameUse<'a>>, OutOfMemory>
    ensures { IfOk result (λ v. map name_of v.items ≡ map plain (map text_of texts.now)) }
{
    let mut names = Vec::with_capacity(alloc, texts.len())?;
    for text in texts {
        names.push(NameUse {
            text: *text,
            primed: false,
        })?;
    }
    Ok(names)
}

fn copied_texts<'a>(alloc: Global, texts: &[&'a str]) -> Result<Vec<&'a str>, OutOfMemory>
    ensures { IfOk result (λ v. map text_of v.items ≡ map text_of texts.now) }
{
    let mut copy = Vec::with_capacity(alloc, texts.len())?;
    for text in texts {
        copy.push(*text)?;
    }
    Ok(copy)
}

fn definition<'a>(
    alloc: Global,
    tree: &DefinitionTree<'a>,
) -> Result<NumberedDefinition<'a>, OutOfMemory>
    ensures { IfOk result (λ d. definition_of d ≡ definition_number (named.definition_of tree.now)) }
{
    let names = first_names(alloc, &parameter_names(alloc, &tree.parameters)?)?;
    let cases = cases(alloc, &names, &tree.cases)?;
    let parameters = copied_texts(alloc, &tree.parameters)?;
    Ok(NumberedDefinition {
        name: tree.name,
        parameters,
        cases,
    })
}

/// The definitions of a problem.
pub fn definitions<'a>(
    alloc: Global,
    trees: &[DefinitionTree<'a>],
) -> Result<Vec<NumberedDefinition<'a>>, OutOfMemory>
    ensures { IfOk result (λ v. map definition_of v.items ≡ map definition_number (map named.definition_of trees.now)) }
{
    let mut definitions = Vec::with_capacity(alloc, trees.len())?;
    for tree in trees {
        definitions.push(definition(alloc, tree)?)?;
    }
    Ok(definitions)
}
