// Parts of premises.
ghost use Rattle.std.specs.Prelude.{◌≡◌, ◌<◌, ◌+◌, ◌∷◌, ◌++◌, [], length, map, IfOk, OnOk};
ghost use Rattle.heap_formula.specs.Positions.{without};
ghost use Rattle.fo_formula.specs.Words.{replaced, in_atom};
ghost use Rattle.fo_formula.specs.Table.{with_left, with_right};
ghost use Rattle.fo_rules.specs.Putting.{put};

use crate::parts::changes::Change;
use cyc_basics::memory::OutOfMemory;
use fo_formula::table::FoPremise;
use fo_formula::{FoAtom, FoAtoms, FoSequent, Sign, Term, Terms};
use std::alloc::Global;

/// A copy of the atoms without the one at a place.
pub fn atoms_without(atoms: &FoAtoms, i: usize) -> Result<Vec<FoAtom>, OutOfMemory>
    requires { i < length atoms.now }
    ensures value { IfOk result (λ v. v.items ≡ without i atoms.now) }
    ensures shorter { IfOk result (λ v. length v.items + 1 ≡ length atoms.now) }
{
    let mut kept = atoms.clone()?.into_vec();
    kept.remove(i);
    Ok(kept)
}

/// A copy of the atoms and one more.
pub fn atoms_and(atoms: &FoAtoms, atom: &FoAtom) -> Result<FoAtoms, OutOfMemory>
    ensures { IfOk result (λ all. all ≡ atoms.now ++ atom.now ∷ []) }
{
    let mut all = atoms.clone()?.into_vec();
    all.push(atom.clone()?)?;
    Ok(FoAtoms::from_vec(all))
}

/// The sequent with another left side.
pub fn sequent_with_left(sequent: &FoSequent, left: FoAtoms) -> Result<FoSequent, OutOfMemory>
    ensures { IfOk result (λ s. s ≡ with_left sequent.now left) }
{
    let right = sequent.right.clone()?;
    Ok(FoSequent { left, right })
}

/// The sequent with another right side.
pub fn sequent_with_right(sequent: &FoSequent, right: FoAtoms) -> Result<FoSequent, OutOfMemory>
    ensures { IfOk result (λ s. s ≡ with_right sequent.now right) }
{
    let left = sequent.left.clone()?;
    Ok(FoSequent { left, right })
}

/// A list of one premise.
pub fn one_premise(alloc: Global, premise: FoPremise) -> Result<Vec<FoPremise>, OutOfMemory>
    ensures { IfOk result (λ v. v.items ≡ premise ∷ []) }
{
    let mut premises = Vec::new(alloc);
    premises.push(premise)?;
    Ok(premises)
}

/// A list of two premises.
pub fn two_premises(
    alloc: Global,
    first: FoPremise,
    second: FoPremise,
) -> Result<Vec<FoPremise>, OutOfMemory>
    ensures { IfOk result (λ v. v.items ≡ first ∷ second ∷ []) }
{
    let mut premises = Vec::new(alloc);
    premises.push(first)?;
    premises.push(second)?;
    Ok(premises)
}

fn push_image(change: &Change, sign: Sign, signs: &mut Vec<Sign>) -> Result<(), OutOfMemory>
    ensures { OnOk result (signs.new.items ≡ signs.old.items ++ put change.now sign) }
{
    match change.term_for(sign) {
        Some(term) => signs.extend_from_slice(term.as_slice())?,
        None => signs.push(change.sign_for(sign))?,
    }
    Ok(())
}

fn changed_term(alloc: Global, change: &Change, term: &Term) -> Result<Term, OutOfMemory>
    ensures { IfOk result (λ t. t ≡ replaced (put change.now) term.now) }
{
    let mut signs = Vec::new(alloc);
    for sign in term.as_slice() {
        push_image(change, *sign, &mut signs)?;
    }
    Ok(Term::from_vec(signs))
}

fn changed_terms(alloc: Global, change: &Change, terms: &[Term]) -> Result<Terms, OutOfMemory>
    ensures { IfOk result (λ ts. ts ≡ map (replaced (put change.now)) terms.now) }
{
    let mut all = Vec::new(alloc);
    for term in terms {
        all.push(changed_term(alloc, change, term)?)?;
    }
    Ok(Terms::from_vec(all))
}

/// An atom after a change.
pub fn changed_atom(alloc: Global, change: &Change, atom: &FoAtom) -> Result<FoAtom, OutOfMemory>
    ensures { IfOk result (λ x. x ≡ in_atom (put change.now) atom.now) }
{
    match atom {
        FoAtom::Equation { left, right } => {
            let left = changed_term(alloc, change, left)?;
            let right = changed_term(alloc, change, right)?;
            Ok(FoAtom::Equation { left, right })
        }
        FoAtom::Predicate {
            predicate,
            arguments,
        } => {
            let arguments = changed_terms(alloc, change, arguments.as_slice())?;
            Ok(FoAtom::Predicate {
                predicate: *predicate,
                arguments,
            })
        }
    }
}

/// Adds atoms after a change.
pub fn push_changed(
    alloc: Global,
    change: &Change,
    atoms: &[FoAtom],
    all: &mut Vec<FoAtom>,
) -> Result<(), OutOfMemory>
    ensures { OnOk result (all.new.items ≡ all.old.items ++ map (in_atom (put change.now)) atoms.now) }
{
    for atom in atoms {
        all.push(changed_atom(alloc, change, atom)?)?;
    }
    Ok(())
}
