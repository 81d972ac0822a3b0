// A formula in the place of atoms that entail it.
ghost use Rattle.std.specs.Prelude.{◌≡◌, ◌≤◌, ◌+◌, true, max, IfOk, List, length};
ghost use Rattle.cyc_basics.specs.Limits.{AreLimits};
ghost use Rattle.heap_formula.specs.declared.commands.Command.{Command};
ghost use Rattle.heap_formula.specs.Definitions.{Definition};
ghost use Rattle.heap_formula.specs.Judgements.{IsLocallySound, antecedent as antecedent_of};
ghost use Rattle.heap_formula.specs.Positions.{chosen, others_of};
ghost use Rattle.rule_table.specs.Answered.{IsAnswer};
ghost use Rattle.rule_table.specs.Changes.{changed, IsSmall};
ghost use Rattle.rule_table.specs.RuleCut.{cut_left};
ghost use Rattle.rule_table.specs.Soundness.{HasVariables};
ghost use Rattle.rule_table.specs.Table.{cut_answer};
ghost use Rattle.rule_table.specs.Tests.{has_number};
ghost use Rattle.unfold_rule.specs.Cutting.{cut_right_by, cut_fits, cut_by, placed_cut_answer};

use crate::joining::joined_heap;
use cyc_basics::limits::{Limits, MOST_PURE, MOST_SPATIAL};
use cyc_basics::memory::OutOfMemory;
use heap_formula::{
    Disjuncts, Heap, Judgement, Positions, Premise, RuleError, RuleFault, Spatial, bound_of_heap,
};
use rule_table::{
    Change, antecedent, are_ascending, are_disjuncts_short, chosen_atoms, chosen_pairs, fresh,
    numbered, two_premises, with_antecedent,
};
use std::alloc::Global;

fn left_premise(
    alloc: Global,
    a: &Heap,
    places: &[u32],
    formula: &Heap,
) -> Result<Premise, OutOfMemory>
    ensures { IfOk result (λ p. p ≡ cut_left a.now (has_number places.now) formula.now) }
{
    let pairs = chosen_pairs(alloc, false, places, a.spatial())?;
    let spatial = chosen_atoms(alloc, false, places, a.spatial())?;
    let pure = Vec::from_slice(alloc, a.pure())?;
    Ok(Premise {
        judgement: Judgement::Entail(
            Heap::from_lists(pure, spatial),
            Disjuncts::single(alloc, formula.clone()?)?,
        ),
        pairs,
    })
}

fn right_premise(
    alloc: Global,
    judgement: &Judgement,
    places: &[u32],
    rest: Vec<Spatial>,
    change: &Change,
    formula: &Heap,
) -> Result<Premise, OutOfMemory>
    requires small { IsSmall change.now }
    requires stays { rest.items ≡ chosen (others_of (has_number places.now)) (antecedent_of judgement.now).spatial }
    requires pure_fits { length (antecedent_of judgement.now).pure + length formula.now.pure ≤ MOST_PURE }
    requires spatial_fits { length rest.items + length formula.now.spatial ≤ MOST_SPATIAL }
    ensures { IfOk result (λ p. p
        ≡ cut_right_by judgement.now (has_number places.now) (changed change.now) formula.now) }
{
    let a = antecedent(judgement);
    let pairs = chosen_pairs(alloc, true, places, a.spatial())?;
    let heap = joined_heap(alloc, a.pure(), rest, change, formula)?;
    Ok(Premise {
        judgement: with_antecedent(judgement, heap)?,
        pairs,
    })
}

fn cut_premises(
    alloc: Global,
    judgement: &Judgement,
    places: &[u32],
    rest: Vec<Spatial>,
    change: &Change,
    formula: &Heap,
) -> Result<Vec<Premise>, OutOfMemory>
    requires small { IsSmall change.now }
    requires stays { rest.items ≡ chosen (others_of (has_number places.now)) (antecedent_of judgement.now).spatial }
    requires pure_fits { length (antecedent_of judgement.now).pure + length formula.now.pure ≤ MOST_PURE }
    requires spatial_fits { length rest.items + length formula.now.spatial ≤ MOST_SPATIAL }
    ensures { IfOk result (λ v. v.items ≡ cut_by judgement.now places.now (changed change.now) formula.now) }
{
    let left = left_premise(alloc, antecedent(judgement), places, formula)?;
    let right = right_premise(alloc, judgement, places, rest, change, formula)?;
    two_premises(alloc, left, right)
}

fn fits(most: Limits, judgement: &Judgement, stay: usize, formula: &Heap) -> bool
    requires most_fits { AreLimits most }
    requires few { stay ≤ MOST_SPATIAL }
    ensures value { result ≡ cut_fits most judgement.now stay formula.now }
    ensures pure_fits { result ≡ true
        → length (antecedent_of judgement.now).pure + length formula.now.pure ≤ MOST_PURE }
    ensures spatial_fits { result ≡ true → stay + length formula.now.spatial ≤ MOST_SPATIAL }
{
    let a = antecedent(judgement);
    if a.spatial().len() > stay + most.spatial as usize {
        return false;
    }
    if a.pure().len() + formula.pure().len() > most.pure as usize {
        return false;
    }
    if stay + formula.spatial().len() > most.spatial as usize {
        return false;
    }
    are_disjuncts_short(most, judgement)
}

fn cut_at(
    alloc: Global,
    most: Limits,
    judgement: &Judgement,
    p: u16,
    places: &[u32],
    rest: Vec<Spatial>,
    formula: &Heap,
) -> Result<Vec<Premise>, RuleError>
    requires most_fits { AreLimits most }
    requires stays { rest.items ≡ chosen (others_of (has_number places.now)) (antecedent_of judgement.now).spatial }
    requires few { length rest.items ≤ MOST_SPATIAL }
    ensures { IsAnswer result (placed_cut_answer most p judgement.now places.now formula.now) }
{
    if !fits(most, judgement, rest.len(), formula) {
        return Err(RuleError::Fault(RuleFault::TooManyAtoms));
    }
    let number = fresh(judgement, p).max(bound_of_heap(formula));
    let change = Change::Opened(number);
    numbered(cut_premises(alloc, judgement, places, rest, &change, formula)?)
}

fn cut(
    alloc: Global,
    judgement: &Judgement,
    p: u16,
    places: &[u32],
    formula: &Heap,
    most: Limits,
) -> Result<Vec<Premise>, RuleError>
    requires { AreLimits most }
    ensures { IsAnswer result (cut_answer most p judgement.now places.now formula.now) }
{
    let a = antecedent(judgement);
    if !are_ascending(places, a.spatial().len()) {
        return Err(RuleError::Fault(RuleFault::NoSuchAtom));
    }
    let rest = chosen_atoms(alloc, true, places, a.spatial())?;
    cut_at(alloc, most, judgement, p, places, rest, formula)
}

/// Two premises: the antecedent's pure atoms and its spatial atoms at the positions, counted from 0 and strictly
/// ascending, entail the formula; and the judgement with the formula in their place, fresh universal variables standing
/// for its existential ones. `p` is the number of program variables, 0 for an entailment, and `most` the
/// limits of the format's version.
pub fn premises_cut(
    alloc: Global,
    judgement: &Judgement,
    p: u16,
    positions: &Positions,
    formula: &Heap,
    most: Limits,
) -> Result<Vec<Premise>, RuleError>
    requires { AreLimits most }
    ensures answer { IsAnswer result (cut_answer most p judgement.now positions.now formula.now) }
    ensures sound { IfOk result (λ v. (ds : List Definition) (lines : List Command)
        → HasVariables lines p judgement.now → IsLocallySound ds lines judgement.now v.items) }
{
    cut(alloc, judgement, p, positions.as_slice(), formula, most)
}
