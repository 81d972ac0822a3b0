// The searches, one after the other, small budgets first.
ghost use Rattle.std.specs.Prelude.{IfOk};
ghost use Rattle.solver.specs.Solutions.{IsFoundRefutation, IsSolution, IsSought};

use crate::antecedents::is_impossible;
use crate::budgets::Budget;
use crate::counter_models::refuting_model;
use crate::faulty_runs::refuting_run;
use crate::proofs::{fixed_proof, free_proof};
use crate::solution::{FoundProof, Refutation, Solution};
use cyc_basics::memory::OutOfMemory;
use formula_reader::Problem;
use heap_formula::Judgement;
use std::alloc::Global;

/// What shows that the goal does not hold.
fn refutation(
    alloc: Global,
    problem: &Problem,
    rounds: u32,
) -> Result<Option<Refutation>, OutOfMemory>
    ensures { IfOk result (IsFoundRefutation problem.now) }
{
    match &problem.goal {
        Judgement::Entail(antecedent, disjuncts) => {
            match refuting_model(alloc, problem, antecedent, disjuncts, rounds)? {
                Some(model) => Ok(Some(Refutation::CounterModel(model))),
                None => Ok(None),
            }
        }
        Judgement::Term(line, precondition) => {
            match refuting_run(alloc, problem, *line, precondition, rounds)? {
                Some(run) => Ok(Some(Refutation::FaultyRun(run))),
                None => Ok(None),
            }
        }
    }
}

/// A proof by either search.
fn any_proof(
    alloc: Global,
    problem: &Problem,
    budget: Budget,
    stuck: &mut Option<Judgement>,
) -> Result<Option<FoundProof>, OutOfMemory>
    ensures { IfOk result (IsSought problem.now) }
{
    let free = free_proof(alloc, problem, budget, stuck)?;
    if free.is_some() {
        return Ok(free);
    }
    fixed_proof(alloc, problem, budget)
}

/// A proof or a refutation within a budget.
fn solution_within(
    alloc: Global,
    problem: &Problem,
    budget: Budget,
) -> Result<Solution, OutOfMemory>
    ensures { IfOk result (IsSolution problem.now) }
{
    let mut stuck = None;
    if let Some(found) = any_proof(alloc, problem, budget, &mut stuck)? {
        return Ok(Solution::Proved(found));
    }
    match refutation(alloc, problem, budget.rounds)? {
        Some(refutation) => Ok(Solution::Refuted(refutation)),
        None => Ok(Solution::Unknown { stuck }),
    }
}

/// A proof of a goal whose antecedent nothing satisfies.
fn impossible(
    alloc: Global,
    problem: &Problem,
    budget: Budget,
) -> Result<Option<FoundProof>, OutOfMemory>
    ensures { IfOk result (IsSought problem.now) }
{
    let mut stuck = None;
    let short = free_proof(alloc, problem, Budget::small(), &mut stuck)?;
    if short.is_some() {
        return Ok(short);
    }
    any_proof(alloc, problem, budget, &mut stuck)
}

/// What is found of a problem's goal, with an effort from 1 to 9: a proof, a counter-model or a faulty run, or that
/// nothing satisfies the antecedent; each was checked. That nothing is found means nothing. The same problem has the
/// same answer each time.
pub fn solve(alloc: Global, problem: &Problem, effort: u32) -> Result<Solution, OutOfMemory>
    ensures { IfOk result (IsSolution problem.now) }
{
    let whole = Budget::whole(effort);
    if is_impossible(alloc, problem, whole)? {
        return match impossible(alloc, problem, whole)? {
            Some(found) => Ok(Solution::Proved(found)),
            None => Ok(Solution::Impossible),
        };
    }
    match solution_within(alloc, problem, Budget::small())? {
        Solution::Unknown { stuck: _ } => solution_within(alloc, problem, whole),
        found => Ok(found),
    }
}
