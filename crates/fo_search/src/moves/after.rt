// The rules that come where no link is admitted.
ghost use Rattle.std.specs.Prelude.{◌≡◌, ◌≤◌, ◌++◌, ℕ, Some, IfOk, OnOk, length, map, slice_get};
ghost use Rattle.std.specs.List.{filter};
ghost use Rattle.fo_formula.specs.declared.atoms.FoAtom.TheVariants.{Predicate};
ghost use Rattle.fo_formula.specs.declared.nodes.FoRule.TheVariants.{Unfold};
ghost use Rattle.fo_formula.specs.Meaning.{cases_of};
ghost use Rattle.search_moves.specs.Places.{each_place};
ghost use Rattle.fo_search.specs.After.{rights_by, rights_at, unfold_at, rules_after as offers_after};
ghost use Rattle.fo_search.specs.Told.{rights_going, rules_left};
ghost use Rattle.fo_search.specs.Trying.{is_applicable_within};

use crate::moves::rights::{CaseLeft, whole_case};
use crate::moves::subterms::subterms;
use crate::moves::told::RulesAfter;
use cyc_basics::limits::{MOST_LEFT, MOST_RIGHT};
use cyc_basics::memory::OutOfMemory;
use fo_formula::{FoAtom, FoAtoms, FoSequent, FoTheory, Terms};
use fo_rules::cases;
use std::alloc::Global;
use std::collections::VecDeque;

/// Adds the cases of an atom on the right. Right leaves a premise for each atom of a case, so one with too many is left
/// out.
fn push_cases<'a>(
    alloc: Global,
    all: &mut VecDeque<CaseLeft<'a>>,
    theory: &FoTheory,
    sequent: &FoSequent,
    most: usize,
    j: u32,
    predicate: u16,
    arguments: &Terms,
    cases: &'a [FoAtoms],
) -> Result<(), OutOfMemory>
    requires atom { slice_get sequent.now.right j ≡ Some (Predicate predicate arguments.now) }
    requires cases { cases.now ≡ cases_of theory.now.definitions predicate }
    requires few { length cases.now ≤ 65536 }
    ensures { OnOk result (rights_going most theory.now sequent.now all.new.items
        ≡ rights_going most theory.now sequent.now all.old.items
        ++ filter (is_applicable_within most theory.now sequent.now)
        (each_place (rights_by sequent.now j arguments.now) cases.now)) }
{
    for (c, case) in cases.iter().enumerate() {
        if case.as_slice().len() <= most {
            all.push_back(whole_case(alloc, j, c as u32, arguments, case.as_slice())?)?;
        }
    }
    Ok(())
}

/// The cases of the atoms on the right.
fn cases_left<'a>(
    alloc: Global,
    theory: &'a FoTheory,
    sequent: &FoSequent,
    most: usize,
) -> Result<VecDeque<CaseLeft<'a>>, OutOfMemory>
    requires right_fits { length sequent.now.right ≤ MOST_RIGHT }
    requires few_cases { (p : ℕ) → length (cases_of theory.now.definitions p) ≤ 65536 }
    ensures { IfOk result (λ q. rights_going most theory.now sequent.now q.items
        ≡ filter (is_applicable_within most theory.now sequent.now)
        (each_place (rights_at theory.now sequent.now) sequent.now.right)) }
{
    let mut all = VecDeque::new(alloc);
    for (j, atom) in sequent.right.as_slice().iter().enumerate() {
        if let FoAtom::Predicate {
            predicate,
            arguments,
        } = atom
        {
            let cases = cases(theory.definitions.as_slice(), *predicate);
            push_cases(
                alloc, &mut all, theory, sequent, most, j as u32, *predicate, arguments, cases,
            )?;
        }
    }
    Ok(all)
}

/// The places of the predicate atoms on the left.
fn unfolds(alloc: Global, left: &[FoAtom]) -> Result<VecDeque<u32>, OutOfMemory>
    requires { length left.now ≤ MOST_LEFT }
    ensures { IfOk result (λ q. map Unfold q.items ≡ each_place unfold_at left.now) }
{
    let mut places = VecDeque::new(alloc);
    for (i, atom) in left.iter().enumerate() {
        if let FoAtom::Predicate { .. } = atom {
            places.push_back(i as u32)?;
        }
    }
    Ok(places)
}

/// What is offered where no link is admitted, but for rules that leave more than `most` premises: Right by atom, by
/// case, and by the terms for the case's locals, subterms of the sequent by first occurrence with which each equation
/// of the case has equal sides or stands on the left; then Unfold by atom. Those with a fault are left out. A rule is
/// made when it is asked for, and no list of terms before. The sequent has at most 32 atoms on the left and 16 on the
/// right.
pub fn rules_after<'a>(
    alloc: Global,
    theory: &'a FoTheory,
    sequent: &FoSequent,
    most: usize,
) -> Result<RulesAfter<'a>, OutOfMemory>
    requires left_fits { length sequent.now.left ≤ MOST_LEFT }
    requires right_fits { length sequent.now.right ≤ MOST_RIGHT }
    requires few_cases { (p : ℕ) → length (cases_of theory.now.definitions p) ≤ 65536 }
    ensures { IfOk result (λ r. rules_left r
        ≡ filter (is_applicable_within most theory.now sequent.now) (offers_after theory.now sequent.now)) }
{
    let values = subterms(alloc, sequent)?;
    let mut cases = cases_left(alloc, theory, sequent, most)?;
    let unfolds = unfolds(alloc, sequent.left.as_slice())?;
    let current = cases.pop_front();
    Ok(RulesAfter {
        theory,
        sequent: sequent.clone()?,
        values,
        most,
        current,
        cases,
        unfolds,
    })
}
