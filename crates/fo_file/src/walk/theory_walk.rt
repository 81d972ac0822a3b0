//! A walk over constructors and definitions in the order of their tokens, up to the first flaw. Each function is given
//! the number of the part's first token and gives that of the token after it and the one that follows every part of its
//! kind.

ghost use Rattle.std.specs.Prelude.{◌≡◌, ◌+◌, ◌<◌, ◌≤◌, ◌^◌, length, map, nat_le};
ghost use Rattle.cyc_lex.specs.declared.fault.What.TheVariants.{Cases};
ghost use Rattle.heap_formula.specs.Words.{Each};
ghost use Rattle.heap_reader.specs.Spans.{total};
ghost use Rattle.heap_reader.specs.Flaws.{over_if, listed_flaw, IsName, IsWalk};
ghost use Rattle.fo_syntax.specs.Trees.{atom_of};
ghost use Rattle.fo_syntax.specs.ProblemTrees.{atoms_of, constructor_of, definition_of};
ghost use Rattle.fo_file.specs.AtomSpans.{atoms_span, AreAtoms};
ghost use Rattle.fo_file.specs.Parts.{IsDefinition};
ghost use Rattle.fo_file.specs.Spans.{constructor_span, definition_span};
ghost use Rattle.fo_file.specs.Flaws.{arguments_flaw, constructor_flaw, definition_head_flaw, case_flaw, cases_flaw};
ghost use Rattle.fo_file.specs.Flaws.{definition_flaw};
ghost use Rattle.fo_file.specs.Answers.{IsPassed};

use crate::walk::atom_walk::walk_atoms;
use crate::walk::flaw::{Reached, Scope, Stop};
use crate::walk::known::Names;
use cyc_basics::limits::{
    MOST_CASE_ATOMS, MOST_CONSTRUCTORS, MOST_FIRST_ORDER_ARGUMENTS, MOST_FIRST_ORDER_CASES,
    MOST_PREDICATES,
};
use cyc_lex::{IllFault, What};
use fo_syntax::problems::{ConstructorTree, DefinitionTree};
use fo_syntax::terms::AtomTree;
use heap_reader::{Flaw, Heads, ill, over};
use std::alloc::Global;

/// A number of arguments.
fn check_arguments(at: usize, number: u32) -> Result<(), Flaw>
    ensures { IsName result (arguments_flaw at number) }
{
    if number > MOST_FIRST_ORDER_ARGUMENTS as u32 {
        return Err(over(What::Arguments, at));
    }
    Ok(())
}

/// A constructor before which n of all stand.
fn walk_constructor(
    constructors: &Heads<'_>,
    n: usize,
    at: usize,
    tree: &ConstructorTree<'_>,
) -> Result<usize, Flaw>
    requires there { n ≤ length constructors.now }
    requires fits { at + constructor_span (constructor_of tree.now) < 2 ^ 64 }
    ensures { IsWalk result (constructor_flaw constructors.now n at (constructor_of tree.now))
        (at + constructor_span (constructor_of tree.now)) }
{
    if n >= MOST_CONSTRUCTORS {
        return Err(over(What::Constructors, at));
    }
    if constructors.has_among(n, tree.name) {
        return Err(ill(IllFault::Duplicate, at + 1));
    }
    if n == 0 && tree.arguments != 0 {
        return Err(ill(IllFault::Constant, at + 2));
    }
    check_arguments(at + 2, tree.arguments)?;
    Ok(at + 4)
}

/// The constructors of a text, the first of which begins at a token.
pub fn walk_constructors(
    constructors: &Heads<'_>,
    at: usize,
    trees: &[ConstructorTree<'_>],
) -> Result<usize, Flaw>
    requires there { length trees.now ≤ length constructors.now }
    requires fits { at + total constructor_span (map constructor_of trees.now) < 2 ^ 64 }
    ensures { IsWalk result
        (listed_flaw (constructor_flaw constructors.now) constructor_span 0 at (map constructor_of trees.now))
        (at + total constructor_span (map constructor_of trees.now)) }
{
    let mut next = at;
    for (n, tree) in trees.iter().enumerate() {
        next = walk_constructor(constructors, n, next, tree)?;
    }
    Ok(next)
}

/// The name of a definition before which n of all stand, and its arity.
fn check_definition_head(
    names: &Names<'_>,
    n: usize,
    at: usize,
    tree: &DefinitionTree<'_>,
) -> Result<(), Flaw>
    requires there { n ≤ length names.now.predicates }
    requires fits { at + 3 < 2 ^ 64 }
    ensures { IsName result
        (definition_head_flaw names.now.constructors names.now.predicates n at (definition_of tree.now)) }
{
    if n >= MOST_PREDICATES {
        return Err(over(What::Predicates, at));
    }
    if names.constructors.arity_of(tree.name).is_some()
        || names.predicates.has_among(n, tree.name)
    {
        return Err(ill(IllFault::Duplicate, at + 1));
    }
    check_arguments(at + 3, tree.arity)
}

/// What a definition has against the case before which n of its cases stand.
fn case_limit(n: usize, at: usize) -> Option<Flaw>
    ensures { result ≡ over_if (nat_le MOST_FIRST_ORDER_CASES n) Cases at }
{
    if n >= MOST_FIRST_ORDER_CASES {
        return Some(over(What::Cases, at));
    }
    None
}

/// A case before which n of its definition's stand.
fn walk_case(
    alloc: Global,
    names: &Names<'_>,
    arity: u32,
    n: usize,
    at: usize,
    trees: &[AtomTree<'_>],
) -> Result<usize, Stop>
    requires are { AreAtoms (map atom_of trees.now) }
    requires fits { at + atoms_span (map atom_of trees.now) < 2 ^ 64 }
    ensures { IsPassed result (case_flaw names.now.constructors names.now.predicates arity n at (map atom_of trees.now))
        (at + atoms_span (map atom_of trees.now)) }
{
    let from = Reached {
        token: at,
        terms: 0,
    };
    let behind = walk_atoms(
        alloc,
        &names.constructors,
        &names.predicates,
        Scope::Case(arity),
        MOST_CASE_ATOMS,
        case_limit(n, at),
        from,
        trees,
    )?;
    Ok(behind.token)
}

/// The cases of a definition with so many parameters.
fn walk_cases(
    alloc: Global,
    names: &Names<'_>,
    arity: u32,
    at: usize,
    trees: &[Vec<AtomTree<'_>>],
) -> Result<usize, Stop>
    requires are { Each AreAtoms (map atoms_of trees.now) }
    requires fits { at + total atoms_span (map atoms_of trees.now) < 2 ^ 64 }
    ensures { IsPassed result (cases_flaw names.now.constructors names.now.predicates arity at (map atoms_of trees.now))
        (at + total atoms_span (map atoms_of trees.now)) }
{
    let mut next = at;
    for (n, tree) in trees.iter().enumerate() {
        next = walk_case(alloc, names, arity, n, next, tree)?;
    }
    Ok(next)
}

/// A definition before which n of all stand.
fn walk_definition(
    alloc: Global,
    names: &Names<'_>,
    n: usize,
    at: usize,
    tree: &DefinitionTree<'_>,
) -> Result<usize, Stop>
    requires is { IsDefinition (definition_of tree.now) }
    requires there { n ≤ length names.now.predicates }
    requires fits { at + definition_span (definition_of tree.now) < 2 ^ 64 }
    ensures { IsPassed result
        (definition_flaw names.now.constructors names.now.predicates n at (definition_of tree.now))
        (at + definition_span (definition_of tree.now)) }
{
    check_definition_head(names, n, at, tree)?;
    let behind = walk_cases(alloc, names, tree.arity, at + 6, &tree.cases)?;
    Ok(behind + 1)
}

/// The definitions of a text, the first of which begins at a token.
pub fn walk_definitions(
    alloc: Global,
    names: &Names<'_>,
    at: usize,
    trees: &[DefinitionTree<'_>],
) -> Result<usize, Stop>
    requires are { Each IsDefinition (map definition_of trees.now) }
    requires there { length trees.now ≤ length names.now.predicates }
    requires fits { at + total definition_span (map definition_of trees.now) < 2 ^ 64 }
    ensures { IsPassed result
        (listed_flaw (definition_flaw names.now.constructors names.now.predicates) definition_span 0 at
        (map definition_of trees.now))
        (at + total definition_span (map definition_of trees.now)) }
{
    let mut next = at;
    for (n, tree) in trees.iter().enumerate() {
        next = walk_definition(alloc, names, n, next, tree)?;
    }
    Ok(next)
}
