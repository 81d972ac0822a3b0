// The rules that close a branch.
ghost use Rattle.fo_formula.specs.Answered.{IsAnswer};
ghost use Rattle.fo_formula.specs.Table.{axiom_answer, refl_answer, clash_answer};

use crate::parts::{atom_at, is_absurd, is_one_atom, is_one_term, limited};
use fo_formula::table::{FoFault, FoPremise, FoRuleError};
use fo_formula::{FoAtom, FoSequent};
use std::alloc::Global;

/// No premise, where left atom `i` is right atom `j`.
pub fn premises_axiom(
    alloc: Global,
    sequent: &FoSequent,
    i: u32,
    j: u32,
) -> Result<Vec<FoPremise>, FoRuleError>
    ensures { IsAnswer result (axiom_answer sequent.now i j) }
{
    let Some(x) = atom_at(sequent.left.as_slice(), i) else {
        return Err(FoRuleError::Fault(FoFault::NoSuchAtom));
    };
    let Some(y) = atom_at(sequent.right.as_slice(), j) else {
        return Err(FoRuleError::Fault(FoFault::NoSuchAtom));
    };
    if !is_one_atom(x, y) {
        return Err(FoRuleError::Fault(FoFault::AtomsDiffer));
    }
    limited(sequent, 0, Vec::new(alloc))
}

/// No premise, where right atom `j` is an equation of a term with itself.
pub fn premises_refl(
    alloc: Global,
    sequent: &FoSequent,
    j: u32,
) -> Result<Vec<FoPremise>, FoRuleError>
    ensures { IsAnswer result (refl_answer sequent.now j) }
{
    let Some(y) = atom_at(sequent.right.as_slice(), j) else {
        return Err(FoRuleError::Fault(FoFault::NoSuchAtom));
    };
    let FoAtom::Equation { left, right } = y else {
        return Err(FoRuleError::Fault(FoFault::NotEquation));
    };
    if !is_one_term(left, right) {
        return Err(FoRuleError::Fault(FoFault::AtomsDiffer));
    }
    limited(sequent, 0, Vec::new(alloc))
}

/// No premise, where left atom `i` is an equation whose sides no closed terms make one.
pub fn premises_clash(
    alloc: Global,
    sequent: &FoSequent,
    i: u32,
) -> Result<Vec<FoPremise>, FoRuleError>
    ensures { IsAnswer result (clash_answer sequent.now i) }
{
    let Some(x) = atom_at(sequent.left.as_slice(), i) else {
        return Err(FoRuleError::Fault(FoFault::NoSuchAtom));
    };
    let FoAtom::Equation { left, right } = x else {
        return Err(FoRuleError::Fault(FoFault::NotEquation));
    };
    if !is_absurd(left.as_slice(), right.as_slice()) {
        return Err(FoRuleError::Fault(FoFault::NotAbsurd));
    }
    limited(sequent, 0, Vec::new(alloc))
}
