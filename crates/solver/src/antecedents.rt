// Whether anything satisfies a goal's antecedent.
ghost use Rattle.std.specs.Prelude.{◌≡◌, IfOk, IsTrue};
ghost use Rattle.solver.specs.Solutions.{IsImpossible};

use crate::budgets::Budget;
use command_answers::sat::impossible_antecedents_entail;
use cyc_basics::memory::OutOfMemory;
use formula_reader::Problem;
use formula_reader::files::problem_is_within;
use heap_formula::{Heap, Spatial};
use rule_table::antecedent;
use sat_pairs::{Limits, PairFault, StatesFault, Table, base_pairs, satisfiable_within};
use std::alloc::Global;

/// The number of ways in which the predicate atoms of a heap can have base pairs, if it is not above the most.
fn are_few_ways(table: &Table, heap: &Heap, most: u32) -> bool {
    let mut ways = 1u64;
    for atom in heap.spatial() {
        if let Spatial::Pred(pred, _) = atom {
            ways = ways.saturating_mul(table.pairs(*pred).len() as u64);
        }
        if ways > u64::from(most) {
            return false;
        }
    }
    true
}

/// Whether it is known that nothing satisfies the antecedent or precondition of the goal: that is found out where the
/// predicates have few base pairs, and these can be chosen for its atoms in few ways.
pub fn is_impossible(alloc: Global, problem: &Problem, budget: Budget) -> Result<bool, OutOfMemory>
    ensures { IfOk result (λ yes. IsTrue yes → IsImpossible problem.now) }
{
    problem_is_within(problem);
    impossible_antecedents_entail();
    let heap = antecedent(&problem.goal);
    let limits = Limits {
        pairs: budget.pairs,
        states: budget.states,
    };
    match base_pairs(alloc, &problem.defs, limits) {
        Ok(table) => {
            if !are_few_ways(&table, heap, budget.pairs) {
                return Ok(false);
            }
            match satisfiable_within(alloc, &problem.defs, &table, heap, budget.states as usize) {
                Ok(yes) => Ok(!yes),
                Err(StatesFault::TooManyStates) => Ok(false),
                Err(StatesFault::OutOfMemory) => Err(OutOfMemory),
            }
        }
        Err(PairFault::TooManyPairs | PairFault::TooManyStates) => Ok(false),
        Err(PairFault::OutOfMemory) => Err(OutOfMemory),
    }
}
