//! Atoms and sequents that trees say.

ghost use Rattle.std.specs.Prelude.{◌≡◌, ◌<◌, length, map, IfOk};
ghost use Rattle.fo_syntax.specs.Trees.{sign_of, atom_of};
ghost use Rattle.fo_syntax.specs.ProblemTrees.{sequent_of};
ghost use Rattle.fo_file.specs.Known.{IsKnownUse, IsKnownAtom, AreKnownAtoms, IsKnownSequent};
ghost use Rattle.fo_file.specs.Values.{use_value, atom_value, atoms_value, sequent_value};

use crate::values::term_values::{adjacent_terms, term};
use cyc_basics::memory::OutOfMemory;
use fo_formula::{FoAtom, FoAtoms, FoSequent};
use fo_syntax::problems::SequentTree;
use fo_syntax::terms::{AtomTree, SignTree};
use heap_reader::Heads;
use std::alloc::Global;

/// A predicate's name with its arguments.
fn predicate(
    alloc: Global,
    constructors: &Heads<'_>,
    predicates: &Heads<'_>,
    trees: &[SignTree<'_>],
) -> Result<FoAtom, OutOfMemory>
    requires known { IsKnownUse constructors.now predicates.now (map sign_of trees.now) }
    requires few { length constructors.now < 65536 }
    requires few_predicates { length predicates.now < 65536 }
    ensures { IfOk result (λ x. x ≡ use_value constructors.now predicates.now (map sign_of trees.now)) }
{
    match trees {
        [SignTree::Apply(name, count), others @ ..] => {
            let arguments = adjacent_terms(alloc, constructors, *count, others)?;
            Ok(FoAtom::Predicate {
                predicate: predicates.place_of(name) as u16,
                arguments,
            })
        }
        _ => unreachable!(),
    }
}

/// The atom that a tree says.
pub fn atom(
    alloc: Global,
    constructors: &Heads<'_>,
    predicates: &Heads<'_>,
    tree: &AtomTree<'_>,
) -> Result<FoAtom, OutOfMemory>
    requires known { IsKnownAtom constructors.now predicates.now (atom_of tree.now) }
    requires few { length constructors.now < 65536 }
    requires few_predicates { length predicates.now < 65536 }
    ensures { IfOk result (λ x. x ≡ atom_value constructors.now predicates.now (atom_of tree.now)) }
{
    match tree {
        AtomTree::Equation(left, right) => {
            let left = term(alloc, constructors, left)?;
            let right = term(alloc, constructors, right)?;
            Ok(FoAtom::Equation { left, right })
        }
        AtomTree::Predicate(signs) => predicate(alloc, constructors, predicates, signs),
    }
}

/// The atoms that trees say, in order.
pub fn atoms(
    alloc: Global,
    constructors: &Heads<'_>,
    predicates: &Heads<'_>,
    trees: &[AtomTree<'_>],
) -> Result<FoAtoms, OutOfMemory>
    requires known { AreKnownAtoms constructors.now predicates.now (map atom_of trees.now) }
    requires few { length constructors.now < 65536 }
    requires few_predicates { length predicates.now < 65536 }
    ensures { IfOk result (λ xs. xs ≡ atoms_value constructors.now predicates.now (map atom_of trees.now)) }
{
    let mut atoms = Vec::with_capacity(alloc, trees.len())?;
    for tree in trees {
        atoms.push(atom(alloc, constructors, predicates, tree)?)?;
    }
    Ok(FoAtoms::from_vec(atoms))
}

/// The sequent that a tree says.
pub fn sequent(
    alloc: Global,
    constructors: &Heads<'_>,
    predicates: &Heads<'_>,
    tree: &SequentTree<'_>,
) -> Result<FoSequent, OutOfMemory>
    requires known { IsKnownSequent constructors.now predicates.now (sequent_of tree.now) }
    requires few { length constructors.now < 65536 }
    requires few_predicates { length predicates.now < 65536 }
    ensures { IfOk result (λ s. s ≡ sequent_value constructors.now predicates.now (sequent_of tree.now)) }
{
    let left = atoms(alloc, constructors, predicates, &tree.left)?;
    let right = atoms(alloc, constructors, predicates, &tree.right)?;
    Ok(FoSequent { left, right })
}
