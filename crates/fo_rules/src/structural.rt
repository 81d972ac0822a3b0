// The rules that remove or copy atoms, and Cut.
ghost use Rattle.std.specs.Prelude.{◌≡◌, ◌<◌, ◌≤◌, length, IfOk, Some};
ghost use Rattle.fo_formula.specs.Answered.{IsAnswer};
ghost use Rattle.fo_formula.specs.Table.{weakened_left, weakened_right, contracted, cut_right, cut_left};
ghost use Rattle.fo_formula.specs.Table.{weaken_left_answer, weaken_right_answer, contract_answer, cut_answer};

use crate::parts::{
    atom_at, atoms_and, atoms_without, limited, one_premise, pairs_of_kept, pairs_of_same,
    push_copy, sequent_with_left, sequent_with_right, size_of_atom, two_premises,
};
use cyc_basics::limits::MOST_LEFT;
use cyc_basics::memory::OutOfMemory;
use fo_formula::table::{FoFault, FoPremise, FoRuleError};
use fo_formula::{FoAtom, FoAtoms, FoSequent};
use std::alloc::Global;

fn without_left(alloc: Global, sequent: &FoSequent, i: usize) -> Result<FoPremise, OutOfMemory>
    requires i_in { i < length sequent.now.left }
    requires few { length sequent.now.left ≤ MOST_LEFT }
    ensures { IfOk result (λ p. p ≡ weakened_left sequent.now i) }
{
    let kept = atoms_without(&sequent.left, i)?;
    let pairs = pairs_of_kept(alloc, &kept, i)?;
    let sequent = sequent_with_left(sequent, FoAtoms::from_vec(kept))?;
    Ok(FoPremise { sequent, pairs })
}

fn without_right(alloc: Global, sequent: &FoSequent, j: usize) -> Result<FoPremise, OutOfMemory>
    requires j_in { j < length sequent.now.right }
    requires few { length sequent.now.left ≤ MOST_LEFT }
    ensures { IfOk result (λ p. p ≡ weakened_right sequent.now j) }
{
    let pairs = pairs_of_same(alloc, sequent.left.as_slice())?;
    let kept = atoms_without(&sequent.right, j)?;
    let sequent = sequent_with_right(sequent, FoAtoms::from_vec(kept))?;
    Ok(FoPremise { sequent, pairs })
}

fn with_copy(
    alloc: Global,
    sequent: &FoSequent,
    i: usize,
    atom: &FoAtom,
) -> Result<FoPremise, OutOfMemory>
    requires i_in { i < length sequent.now.left }
    requires few { length sequent.now.left ≤ MOST_LEFT }
    ensures { IfOk result (λ p. p ≡ contracted sequent.now i atom.now) }
{
    let mut pairs = pairs_of_same(alloc, sequent.left.as_slice())?;
    push_copy(&mut pairs, i, sequent.left.as_slice().len(), atom)?;
    let left = atoms_and(&sequent.left, atom)?;
    let sequent = sequent_with_left(sequent, left)?;
    Ok(FoPremise { sequent, pairs })
}

/// The sequent without left atom `i`.
pub fn premises_weaken_left(
    alloc: Global,
    sequent: &FoSequent,
    i: u32,
) -> Result<Vec<FoPremise>, FoRuleError>
    requires { length sequent.now.left ≤ MOST_LEFT }
    ensures { IsAnswer result (weaken_left_answer sequent.now i) }
{
    let Some(_) = atom_at(sequent.left.as_slice(), i) else {
        return Err(FoRuleError::Fault(FoFault::NoSuchAtom));
    };
    let premise = without_left(alloc, sequent, i as usize)?;
    limited(sequent, 0, one_premise(alloc, premise)?)
}

/// The sequent without right atom `j`.
pub fn premises_weaken_right(
    alloc: Global,
    sequent: &FoSequent,
    j: u32,
) -> Result<Vec<FoPremise>, FoRuleError>
    requires { length sequent.now.left ≤ MOST_LEFT }
    ensures { IsAnswer result (weaken_right_answer sequent.now j) }
{
    let Some(_) = atom_at(sequent.right.as_slice(), j) else {
        return Err(FoRuleError::Fault(FoFault::NoSuchAtom));
    };
    let premise = without_right(alloc, sequent, j as usize)?;
    limited(sequent, 0, one_premise(alloc, premise)?)
}

/// The sequent with a copy of left atom `i` after the others, which goes on from it.
pub fn premises_contract(
    alloc: Global,
    sequent: &FoSequent,
    i: u32,
) -> Result<Vec<FoPremise>, FoRuleError>
    requires { length sequent.now.left ≤ MOST_LEFT }
    ensures { IsAnswer result (contract_answer sequent.now i) }
{
    let Some(x) = atom_at(sequent.left.as_slice(), i) else {
        return Err(FoRuleError::Fault(FoFault::NoSuchAtom));
    };
    let premise = with_copy(alloc, sequent, i as usize, x)?;
    limited(sequent, 0, one_premise(alloc, premise)?)
}

fn with_atom_right(
    alloc: Global,
    sequent: &FoSequent,
    atom: &FoAtom,
) -> Result<FoPremise, OutOfMemory>
    requires { length sequent.now.left ≤ MOST_LEFT }
    ensures { IfOk result (λ p. p ≡ cut_right sequent.now atom.now) }
{
    let pairs = pairs_of_same(alloc, sequent.left.as_slice())?;
    let right = atoms_and(&sequent.right, atom)?;
    let sequent = sequent_with_right(sequent, right)?;
    Ok(FoPremise { sequent, pairs })
}

fn with_atom_left(
    alloc: Global,
    sequent: &FoSequent,
    atom: &FoAtom,
) -> Result<FoPremise, OutOfMemory>
    requires { length sequent.now.left ≤ MOST_LEFT }
    ensures { IfOk result (λ p. p ≡ cut_left sequent.now atom.now) }
{
    let pairs = pairs_of_same(alloc, sequent.left.as_slice())?;
    let left = atoms_and(&sequent.left, atom)?;
    let sequent = sequent_with_left(sequent, left)?;
    Ok(FoPremise { sequent, pairs })
}

/// The sequent with an atom on the right, and the sequent with it on the left, where it has no trace (Gentzen 1935).
pub fn premises_cut(
    alloc: Global,
    sequent: &FoSequent,
    atom: &FoAtom,
) -> Result<Vec<FoPremise>, FoRuleError>
    requires { length sequent.now.left ≤ MOST_LEFT }
    ensures { IsAnswer result (cut_answer sequent.now atom.now) }
{
    let first = with_atom_right(alloc, sequent, atom)?;
    let second = with_atom_left(alloc, sequent, atom)?;
    limited(
        sequent,
        size_of_atom(atom),
        two_premises(alloc, first, second)?,
    )
}
