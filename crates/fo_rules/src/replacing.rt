// A term in the place of a variable that it equals.
ghost use Rattle.std.specs.Prelude.{◌≡◌, ◌<◌, ◌≤◌, ◌+◌, ◌∷◌, [], length, map, nat_le, IfOk};
ghost use Rattle.heap_formula.specs.Positions.{without};
ghost use Rattle.fo_formula.specs.Words.{in_atom};
ghost use Rattle.fo_formula.specs.Answered.{IsAnswer};
ghost use Rattle.fo_formula.specs.Answers.{limited as limited_answer};
ghost use Rattle.fo_formula.specs.Table.{with_term, named as named_of, unnamed as unnamed_of, replace_answer};
ghost use Rattle.fo_rules.specs.Putting.{put};
ghost use Rattle.fo_rules.specs.declared.parts.changes.Change.TheVariants.{Substitution};
ghost use Rattle.fo_rules.specs.Making.{changed_size};
ghost use Rattle.fo_rules.specs.Answers.{named_answer};

use crate::parts::{
    Change, atom_at, atoms_without, is_small_with, one_premise, only_variable, pairs_of_kept,
    push_changed, size_of_changed_atoms,
};
use cyc_basics::limits::{MOST_LEFT, MOST_RIGHT, MOST_TERMS};
use cyc_basics::memory::OutOfMemory;
use fo_formula::table::{FoFault, FoPremise, FoRuleError};
use fo_formula::{FoAtom, FoAtoms, FoSequent, FoSubst, Side, Term};
use std::alloc::Global;

fn one_term(alloc: Global, n: u16, term: &Term) -> Result<Change, OutOfMemory>
    ensures { IfOk result (λ c. c ≡ Substitution ((n, term.now) ∷ [])) }
{
    let mut pairs = Vec::new(alloc);
    pairs.push((n, term.clone()?))?;
    Ok(Change::Substitution(FoSubst::from_vec(pairs)))
}

/// Whether the two sides have at most 4,096 terms after a change.
fn are_small(change: &Change, left: &[FoAtom], right: &[FoAtom]) -> bool
    ensures { result ≡ nat_le (changed_size change.now left.now + changed_size change.now right.now) MOST_TERMS }
{
    size_of_changed_atoms(change, left) + size_of_changed_atoms(change, right) <= MOST_TERMS
}

fn changed_atoms(alloc: Global, change: &Change, atoms: &[FoAtom]) -> Result<FoAtoms, OutOfMemory>
    ensures { IfOk result (λ xs. xs ≡ map (in_atom (put change.now)) atoms.now) }
{
    let mut all = Vec::new(alloc);
    push_changed(alloc, change, atoms, &mut all)?;
    Ok(FoAtoms::from_vec(all))
}

fn changed_premise(
    alloc: Global,
    sequent: &FoSequent,
    i: usize,
    kept: &[FoAtom],
    n: u16,
    term: &Term,
    change: &Change,
) -> Result<FoPremise, OutOfMemory>
    requires kept { kept.now ≡ without i sequent.now.left }
    requires few { length kept.now ≤ MOST_LEFT }
    requires change { change.now ≡ Substitution ((n, term.now) ∷ []) }
    ensures { IfOk result (λ p. p ≡ with_term sequent.now i n term.now) }
{
    let pairs = pairs_of_kept(alloc, kept, i)?;
    let left = changed_atoms(alloc, change, kept)?;
    let right = changed_atoms(alloc, change, sequent.right.as_slice())?;
    Ok(FoPremise {
        sequent: FoSequent { left, right },
        pairs,
    })
}

fn replaced(
    alloc: Global,
    sequent: &FoSequent,
    i: usize,
    n: u16,
    term: &Term,
) -> Result<Vec<FoPremise>, FoRuleError>
    requires i_in { i < length sequent.now.left }
    requires left_fits { length sequent.now.left ≤ MOST_LEFT }
    requires right_fits { length sequent.now.right ≤ MOST_RIGHT }
    ensures { IsAnswer result (limited_answer sequent.now 0 (with_term sequent.now i n term.now ∷ [])) }
{
    let kept = atoms_without(&sequent.left, i)?;
    let change = one_term(alloc, n, term)?;
    if !is_small_with(sequent, 0) {
        return Err(FoRuleError::Fault(FoFault::TooManyTerms));
    }
    if !are_small(&change, &kept, sequent.right.as_slice()) {
        return Err(FoRuleError::Fault(FoFault::TooManyTerms));
    }
    let premise = changed_premise(alloc, sequent, i, &kept, n, term, &change)?;
    Ok(one_premise(alloc, premise)?)
}

fn replaced_named(
    alloc: Global,
    sequent: &FoSequent,
    i: usize,
    named: &Term,
    other: &Term,
) -> Result<Vec<FoPremise>, FoRuleError>
    requires i_in { i < length sequent.now.left }
    requires left_fits { length sequent.now.left ≤ MOST_LEFT }
    requires right_fits { length sequent.now.right ≤ MOST_RIGHT }
    ensures { IsAnswer result (named_answer sequent.now i named.now other.now) }
{
    match only_variable(named.as_slice()) {
        None => Err(FoRuleError::Fault(FoFault::NotVariable)),
        Some(n) => replaced(alloc, sequent, i, n, other),
    }
}

fn replaced_side(
    alloc: Global,
    sequent: &FoSequent,
    i: usize,
    side: Side,
    left: &Term,
    right: &Term,
) -> Result<Vec<FoPremise>, FoRuleError>
    requires i_in { i < length sequent.now.left }
    requires left_fits { length sequent.now.left ≤ MOST_LEFT }
    requires right_fits { length sequent.now.right ≤ MOST_RIGHT }
    ensures { IsAnswer result
        (named_answer sequent.now i (named_of side left.now right.now) (unnamed_of side left.now right.now)) }
{
    match side {
        Side::Left => replaced_named(alloc, sequent, i, left, right),
        Side::Right => replaced_named(alloc, sequent, i, right, left),
    }
}

/// The other side of the equation at left atom `i` in place of the variable on the named side, everywhere else.
pub fn premises_replace(
    alloc: Global,
    sequent: &FoSequent,
    i: u32,
    side: Side,
) -> Result<Vec<FoPremise>, FoRuleError>
    requires left_fits { length sequent.now.left ≤ MOST_LEFT }
    requires right_fits { length sequent.now.right ≤ MOST_RIGHT }
    ensures { IsAnswer result (replace_answer sequent.now i side) }
{
    let Some(x) = atom_at(sequent.left.as_slice(), i) else {
        return Err(FoRuleError::Fault(FoFault::NoSuchAtom));
    };
    let FoAtom::Equation { left, right } = x else {
        return Err(FoRuleError::Fault(FoFault::NotEquation));
    };
    replaced_side(alloc, sequent, i as usize, side, left, right)
}
