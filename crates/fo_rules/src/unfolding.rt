// The cases in the place of a predicate on the left.
ghost use Rattle.std.specs.Prelude.{◌≡◌, ◌<◌, ◌≤◌, ◌+◌, true, length, map, nat_le, List, [], ◌∷◌, IfOk};
ghost use Rattle.std.specs.List.{list_all};
ghost use Rattle.fo_formula.specs.Bounds.{atoms_bound, sequent_bound};
ghost use Rattle.fo_formula.specs.declared.atoms.FoAtom.{FoAtom as AtomValue};
ghost use Rattle.fo_formula.specs.declared.numbers.Kind.TheVariants.{Locals};
ghost use Rattle.fo_formula.specs.declared.terms.Sign.TheVariants.{Universal};
ghost use Rattle.fo_formula.specs.Answered.{IsAnswer};
ghost use Rattle.fo_formula.specs.Table.{variables_from, is_numbered, unfold_premise as premise_of};
ghost use Rattle.fo_formula.specs.Table.{unfold_cases as cases_answer, unfold_answer};
ghost use Rattle.fo_rules.specs.Making.{unfold_by, case_fits, unfolding_fits};

use crate::parts::{
    Change, atom_at, atoms_without, is_small_with, pairs_of_kept, push_changed, push_children,
    sequent_with_left, size_of_atoms, size_of_changed_atoms,
};
use crate::right_cases::cases;
use cyc_basics::limits::{MOST_LEFT, MOST_RIGHT, MOST_TERMS, VARIABLE_NUMBERS};
use cyc_basics::memory::OutOfMemory;
use fo_formula::table::{FoFault, FoPremise, FoRuleError};
use fo_formula::{
    FoAtom, FoAtoms, FoSequent, FoTheory, Kind, Sign, Term, Terms, bound_of_atoms, bound_of_sequent,
};
use std::alloc::Global;

/// Whether each case has, with `kept` atoms, at most 32.
fn are_short(kept: usize, cases: &[FoAtoms]) -> bool
    requires { kept ≤ MOST_LEFT }
    ensures { result ≡ list_all (λ (c : List AtomValue). nat_le (kept + length c) MOST_LEFT) cases.now }
{
    for case in cases {
        if case.as_slice().len() > MOST_LEFT - kept {
            return false;
        }
    }
    true
}

/// Whether each case, after a change, has with `others` terms at most 4,096.
fn are_small(others: usize, change: &Change, cases: &[FoAtoms]) -> bool
    requires { others ≤ 8194 }
    ensures { result ≡ list_all (case_fits others change.now) cases.now }
{
    for case in cases {
        if others + size_of_changed_atoms(change, case.as_slice()) > MOST_TERMS {
            return false;
        }
    }
    true
}

/// Whether the locals of each case have numbers from `number` on that are at most 65,534.
fn are_numbered(number: u32, cases: &[FoAtoms]) -> bool
    requires { number ≤ 65536 }
    ensures { result ≡ list_all (is_numbered number) cases.now }
{
    for case in cases {
        if number + bound_of_atoms(Kind::Locals, case.as_slice()) > VARIABLE_NUMBERS {
            return false;
        }
    }
    true
}

fn variable(alloc: Global, n: u16) -> Result<Term, OutOfMemory>
    ensures { IfOk result (λ t. t ≡ Universal n ∷ []) }
{
    let mut signs = Vec::new(alloc);
    signs.push(Sign::Universal(n))?;
    Ok(Term::from_vec(signs))
}

fn variables(alloc: Global, number: u32, count: u32) -> Result<Terms, OutOfMemory>
    requires { number + count ≤ VARIABLE_NUMBERS }
    ensures { IfOk result (λ ts. ts ≡ variables_from number count) }
{
    let mut all = Vec::new(alloc);
    for k in 0..count {
        all.push(variable(alloc, (number + k) as u16)?)?;
    }
    Ok(Terms::from_vec(all))
}

fn changed_premise(
    alloc: Global,
    sequent: &FoSequent,
    i: usize,
    change: &Change,
    case: &[FoAtom],
) -> Result<FoPremise, OutOfMemory>
    requires i_in { i < length sequent.now.left }
    requires left_fits { length sequent.now.left ≤ MOST_LEFT }
    requires case_fits { length case.now ≤ MOST_LEFT }
    ensures { IfOk result (λ p. p ≡ unfold_by sequent.now i change.now case.now) }
{
    let mut left = atoms_without(&sequent.left, i)?;
    let mut pairs = pairs_of_kept(alloc, &left, i)?;
    push_children(&mut pairs, i, left.len(), case)?;
    push_changed(alloc, change, case, &mut left)?;
    let sequent = sequent_with_left(sequent, FoAtoms::from_vec(left))?;
    Ok(FoPremise { sequent, pairs })
}

fn case_premise(
    alloc: Global,
    sequent: &FoSequent,
    i: usize,
    arguments: &Terms,
    number: u32,
    case: &[FoAtom],
) -> Result<FoPremise, OutOfMemory>
    requires i_in { i < length sequent.now.left }
    requires left_fits { length sequent.now.left ≤ MOST_LEFT }
    requires case_fits { length case.now ≤ MOST_LEFT }
    requires numbered { number + atoms_bound Locals case.now ≤ VARIABLE_NUMBERS }
    ensures { IfOk result (λ p. p ≡ premise_of sequent.now i arguments.now number case.now) }
{
    let count = bound_of_atoms(Kind::Locals, case);
    let arguments = arguments.clone()?;
    let locals = variables(alloc, number, count)?;
    let change = Change::Instance { arguments, locals };
    changed_premise(alloc, sequent, i, &change, case)
}

fn case_premises(
    alloc: Global,
    sequent: &FoSequent,
    i: usize,
    arguments: &Terms,
    number: u32,
    kept: usize,
    cases: &[FoAtoms],
) -> Result<Vec<FoPremise>, OutOfMemory>
    requires i_in { i < length sequent.now.left }
    requires left_fits { length sequent.now.left ≤ MOST_LEFT }
    requires short { list_all (λ (c : List AtomValue). nat_le (kept + length c) MOST_LEFT) cases.now ≡ true }
    requires numbered { list_all (is_numbered number) cases.now ≡ true }
    ensures { IfOk result (λ v. v.items ≡ map (premise_of sequent.now i arguments.now number) cases.now) }
{
    let mut premises = Vec::new(alloc);
    for case in cases {
        premises.push(case_premise(alloc, sequent, i, arguments, number, case.as_slice())?)?;
    }
    Ok(premises)
}

/// Whether the sequent and each premise has at most 4,096 terms. A local is one sign, whichever variable it becomes.
fn fit(
    alloc: Global,
    sequent: &FoSequent,
    kept: &[FoAtom],
    arguments: &Terms,
    cases: &[FoAtoms],
) -> Result<bool, OutOfMemory>
    ensures { IfOk result (λ b. b ≡ unfolding_fits sequent.now kept.now arguments.now cases.now) }
{
    if !is_small_with(sequent, 0) {
        return Ok(false);
    }
    let change = Change::Instance {
        arguments: arguments.clone()?,
        locals: Terms::from_vec(Vec::new(alloc)),
    };
    let others = size_of_atoms(kept) + size_of_atoms(sequent.right.as_slice());
    Ok(are_small(others, &change, cases))
}

fn unfold_cases(
    alloc: Global,
    sequent: &FoSequent,
    i: usize,
    arguments: &Terms,
    cases: &[FoAtoms],
) -> Result<Vec<FoPremise>, FoRuleError>
    requires i_in { i < length sequent.now.left }
    requires left_fits { length sequent.now.left ≤ MOST_LEFT }
    requires right_fits { length sequent.now.right ≤ MOST_RIGHT }
    ensures { IsAnswer result (cases_answer sequent.now i arguments.now (sequent_bound sequent.now) cases.now) }
{
    let kept = atoms_without(&sequent.left, i)?;
    let count = kept.as_slice().len();
    if !are_short(count, cases) {
        return Err(FoRuleError::Fault(FoFault::TooManyAtoms));
    }
    if !fit(alloc, sequent, &kept, arguments, cases)? {
        return Err(FoRuleError::Fault(FoFault::TooManyTerms));
    }
    let number = bound_of_sequent(sequent);
    if !are_numbered(number, cases) {
        return Err(FoRuleError::Fault(FoFault::NoFreshVariable));
    }
    Ok(case_premises(alloc, sequent, i, arguments, number, count, cases)?)
}

/// One premise for each case of the predicate at left atom `i`: the case's atoms after the others in its place, the
/// arguments standing for the parameters and fresh variables for the locals. Their traces progress.
pub fn premises_unfold(
    alloc: Global,
    theory: &FoTheory,
    sequent: &FoSequent,
    i: u32,
) -> Result<Vec<FoPremise>, FoRuleError>
    requires left_fits { length sequent.now.left ≤ MOST_LEFT }
    requires right_fits { length sequent.now.right ≤ MOST_RIGHT }
    ensures { IsAnswer result (unfold_answer theory.now sequent.now i) }
{
    let Some(x) = atom_at(sequent.left.as_slice(), i) else {
        return Err(FoRuleError::Fault(FoFault::NoSuchAtom));
    };
    match x {
        FoAtom::Equation { .. } => Err(FoRuleError::Fault(FoFault::NoSuchAtom)),
        FoAtom::Predicate {
            predicate,
            arguments,
        } => {
            let cases = cases(theory.definitions.as_slice(), *predicate);
            unfold_cases(alloc, sequent, i as usize, arguments, cases)
        }
    }
}
