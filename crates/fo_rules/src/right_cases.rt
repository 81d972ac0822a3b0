// The atoms of a case in the place of a predicate on the right.
ghost use Rattle.std.specs.Prelude.{◌≡◌, ◌<◌, ◌≤◌, ◌+◌, length, map, IfOk};
ghost use Rattle.std.specs.List.{list_all};
ghost use Rattle.fo_formula.specs.Meaning.{cases_of};
ghost use Rattle.fo_formula.specs.declared.numbers.Kind.TheVariants.{Locals};
ghost use Rattle.fo_formula.specs.Answered.{IsAnswer};
ghost use Rattle.fo_formula.specs.Table.{right_answer};
ghost use Rattle.fo_rules.specs.Making.{right_by, atom_fits};
ghost use Rattle.fo_rules.specs.Answers.{case_answer, numbered_answer, chosen_answer};

use crate::parts::{
    Change, atom_at, atoms_without, changed_atom, is_small_with, pairs_of_same, size_of_atoms,
    size_of_changed_atom, size_of_terms,
};
use cyc_basics::limits::{MOST_LEFT, MOST_RIGHT, MOST_TERMS};
use cyc_basics::memory::OutOfMemory;
use fo_formula::table::{FoFault, FoPremise, FoRuleError};
use fo_formula::{FoAtom, FoAtoms, FoDefinition, FoSequent, FoTheory, Kind, Terms, bound_of_atoms};
use std::alloc::Global;

/// The cases of a predicate, none where there is no such predicate.
pub fn cases(definitions: &[FoDefinition], predicate: u16) -> &[FoAtoms]
    ensures { result.now ≡ cases_of definitions.now predicate }
{
    if (predicate as usize) < definitions.len() {
        definitions[predicate as usize].cases.as_slice()
    } else {
        &[]
    }
}

fn one_premise(
    alloc: Global,
    sequent: &FoSequent,
    j: usize,
    change: &Change,
    atom: &FoAtom,
) -> Result<FoPremise, OutOfMemory>
    requires j_in { j < length sequent.now.right }
    requires few { length sequent.now.left ≤ MOST_LEFT }
    ensures { IfOk result (λ p. p ≡ right_by sequent.now j change.now atom.now) }
{
    let pairs = pairs_of_same(alloc, sequent.left.as_slice())?;
    let left = sequent.left.clone()?;
    let mut right = sequent.right.clone()?.into_vec();
    right[j] = changed_atom(alloc, change, atom)?;
    Ok(FoPremise {
        sequent: FoSequent {
            left,
            right: FoAtoms::from_vec(right),
        },
        pairs,
    })
}

fn case_premises(
    alloc: Global,
    sequent: &FoSequent,
    j: usize,
    change: &Change,
    case: &[FoAtom],
) -> Result<Vec<FoPremise>, OutOfMemory>
    requires j_in { j < length sequent.now.right }
    requires few { length sequent.now.left ≤ MOST_LEFT }
    ensures { IfOk result (λ v. v.items ≡ map (right_by sequent.now j change.now) case.now) }
{
    let mut premises = Vec::new(alloc);
    for atom in case {
        premises.push(one_premise(alloc, sequent, j, change, atom)?)?;
    }
    Ok(premises)
}

/// Whether each atom of the case, after a change, has with `others` terms at most 4,096.
fn are_small(others: usize, change: &Change, case: &[FoAtom]) -> bool
    requires { others ≤ 8194 }
    ensures { result ≡ list_all (atom_fits others change.now) case.now }
{
    for atom in case {
        if others + size_of_changed_atom(change, atom) > MOST_TERMS {
            return false;
        }
    }
    true
}

fn case_in_place(
    alloc: Global,
    sequent: &FoSequent,
    j: usize,
    arguments: &Terms,
    terms: &Terms,
    case: &[FoAtom],
) -> Result<Vec<FoPremise>, FoRuleError>
    requires j_in { j < length sequent.now.right }
    requires left_fits { length sequent.now.left ≤ MOST_LEFT }
    requires right_fits { length sequent.now.right ≤ MOST_RIGHT }
    ensures { IsAnswer result (case_answer sequent.now j arguments.now terms.now case.now) }
{
    if !is_small_with(sequent, size_of_terms(terms.as_slice())) {
        return Err(FoRuleError::Fault(FoFault::TooManyTerms));
    }
    let change = Change::Instance {
        arguments: arguments.clone()?,
        locals: terms.clone()?,
    };
    let kept = atoms_without(&sequent.right, j)?;
    let others = size_of_atoms(sequent.left.as_slice()) + size_of_atoms(&kept);
    if !are_small(others, &change, case) {
        return Err(FoRuleError::Fault(FoFault::TooManyTerms));
    }
    Ok(case_premises(alloc, sequent, j, &change, case)?)
}

fn numbered_case(
    alloc: Global,
    sequent: &FoSequent,
    j: usize,
    arguments: &Terms,
    terms: &Terms,
    case: &[FoAtom],
) -> Result<Vec<FoPremise>, FoRuleError>
    requires j_in { j < length sequent.now.right }
    requires left_fits { length sequent.now.left ≤ MOST_LEFT }
    requires right_fits { length sequent.now.right ≤ MOST_RIGHT }
    ensures { IsAnswer result (numbered_answer sequent.now j arguments.now terms.now case.now) }
{
    if terms.as_slice().len() != bound_of_atoms(Kind::Locals, case) as usize {
        return Err(FoRuleError::Fault(FoFault::TermCount));
    }
    case_in_place(alloc, sequent, j, arguments, terms, case)
}

fn chosen_case(
    alloc: Global,
    cases: &[FoAtoms],
    sequent: &FoSequent,
    j: usize,
    c: u32,
    arguments: &Terms,
    terms: &Terms,
) -> Result<Vec<FoPremise>, FoRuleError>
    requires j_in { j < length sequent.now.right }
    requires left_fits { length sequent.now.left ≤ MOST_LEFT }
    requires right_fits { length sequent.now.right ≤ MOST_RIGHT }
    ensures { IsAnswer result (chosen_answer cases.now sequent.now j c arguments.now terms.now) }
{
    match cases.get(c as usize) {
        None => Err(FoRuleError::Fault(FoFault::NoSuchCase)),
        Some(case) => numbered_case(alloc, sequent, j, arguments, terms, case.as_slice()),
    }
}

/// For each atom of case `c` of the predicate at right atom `j`, the sequent with it in that place, the arguments
/// standing for the parameters and the terms for the locals.
pub fn premises_right(
    alloc: Global,
    theory: &FoTheory,
    sequent: &FoSequent,
    j: u32,
    c: u32,
    terms: &Terms,
) -> Result<Vec<FoPremise>, FoRuleError>
    requires left_fits { length sequent.now.left ≤ MOST_LEFT }
    requires right_fits { length sequent.now.right ≤ MOST_RIGHT }
    ensures { IsAnswer result (right_answer theory.now sequent.now j c terms.now) }
{
    let Some(y) = atom_at(sequent.right.as_slice(), j) else {
        return Err(FoRuleError::Fault(FoFault::NoSuchAtom));
    };
    match y {
        FoAtom::Equation { .. } => Err(FoRuleError::Fault(FoFault::NoSuchAtom)),
        FoAtom::Predicate {
            predicate,
            arguments,
        } => {
            let cases = cases(theory.definitions.as_slice(), *predicate);
            chosen_case(alloc, cases, sequent, j as usize, c, arguments, terms)
        }
    }
}
