//! Atoms and sequents as trees, with names borrowed from the theory.

ghost use Rattle.std.specs.Prelude.{◌≡◌, ◌++◌, map, IfOk, OnOk};
ghost use Rattle.std.specs.List.{flat_map};
ghost use Rattle.fo_syntax.specs.Trees.{sign_of, atom_of};
ghost use Rattle.fo_syntax.specs.ProblemTrees.{atoms_of, sequent_of};
ghost use Rattle.fo_file.specs.Written.{predicate_name as name_of_predicate, term_tree, atom_tree, atoms_tree};
ghost use Rattle.fo_file.specs.Written.{sequent_tree};

use crate::values::term_trees::{push_signs, term};
use cyc_basics::memory::OutOfMemory;
use fo_formula::{FoAtom, FoAtoms, FoSequent, FoTheory, Term, Terms};
use fo_syntax::problems::SequentTree;
use fo_syntax::terms::{AtomTree, SignTree};
use std::alloc::Global;

/// The name of the predicate with this number, empty where there is none.
fn predicate_name(theory: &FoTheory, number: u16) -> &str
    ensures { result.now ≡ name_of_predicate theory.now number }
{
    match theory.definitions.as_slice().get(number as usize) {
        Some(definition) => definition.name.as_text(),
        None => "",
    }
}

/// Adds the signs of terms, one term after the other.
fn push_terms<'a>(
    theory: &'a FoTheory,
    values: &[Term],
    signs: &mut Vec<SignTree<'a>>,
) -> Result<(), OutOfMemory>
    ensures { OnOk result (map sign_of signs.new.items
        ≡ map sign_of signs.old.items ++ flat_map (term_tree theory.now) values.now) }
{
    for value in values {
        push_signs(theory, value.as_slice(), signs)?;
    }
    Ok(())
}

fn predicate<'a>(
    alloc: Global,
    theory: &'a FoTheory,
    predicate: u16,
    arguments: &Terms,
) -> Result<AtomTree<'a>, OutOfMemory>
    ensures { IfOk result (λ t. atom_of t ≡ atom_tree theory.now (FoAtom.Predicate predicate arguments.now)) }
{
    let terms = arguments.as_slice();
    let mut signs = Vec::new(alloc);
    signs.push(SignTree::Apply(predicate_name(theory, predicate), terms.len()))?;
    push_terms(theory, terms, &mut signs)?;
    Ok(AtomTree::Predicate(signs))
}

/// The tree of an atom.
pub fn atom<'a>(
    alloc: Global,
    theory: &'a FoTheory,
    value: &FoAtom,
) -> Result<AtomTree<'a>, OutOfMemory>
    ensures { IfOk result (λ t. atom_of t ≡ atom_tree theory.now value.now) }
{
    match value {
        FoAtom::Equation { left, right } => {
            let left = term(alloc, theory, left)?;
            let right = term(alloc, theory, right)?;
            Ok(AtomTree::Equation(left, right))
        }
        FoAtom::Predicate {
            predicate: number,
            arguments,
        } => predicate(alloc, theory, *number, arguments),
    }
}

/// The trees of atoms, in order.
pub fn atoms<'a>(
    alloc: Global,
    theory: &'a FoTheory,
    values: &FoAtoms,
) -> Result<Vec<AtomTree<'a>>, OutOfMemory>
    ensures { IfOk result (λ v. atoms_of v ≡ atoms_tree theory.now values.now) }
{
    let values = values.as_slice();
    let mut trees = Vec::with_capacity(alloc, values.len())?;
    for value in values {
        trees.push(atom(alloc, theory, value)?)?;
    }
    Ok(trees)
}

/// The tree of a sequent.
pub fn sequent<'a>(
    alloc: Global,
    theory: &'a FoTheory,
    value: &FoSequent,
) -> Result<SequentTree<'a>, OutOfMemory>
    ensures { IfOk result (λ t. sequent_of t ≡ sequent_tree theory.now value.now) }
{
    let left = atoms(alloc, theory, &value.left)?;
    let right = atoms(alloc, theory, &value.right)?;
    Ok(SequentTree { left, right })
}
