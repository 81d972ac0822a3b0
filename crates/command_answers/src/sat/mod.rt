//! The answers of the command `sat`: is there a stack and a heap that satisfy what a problem's goal starts from?

ghost use Rattle.std.specs.Prelude.{◌≡◌, ◌↔◌, IfOk, IsTrue, true};
ghost use Rattle.heap_formula.specs.Judgements.{antecedent};
ghost use Rattle.pair_family.specs.Statements.{IsSatisfiable};
ghost use Rattle.cyc_runs.specs.Endings.{is_answer};
ghost use Rattle.heap_formula.specs.Words.{Each};
ghost use Rattle.pair_family.specs.Closedness.{AreCases, HasFields};
ghost use Rattle.pair_family.specs.Tables.{IsTable};
ghost use Rattle.command_answers.specs.Answers.{IsPairsAnswer, IsSaid, IsStatesAnswer};

mod laws;

use cyc_basics::memory::OutOfMemory;
use cyc_runs::{Answer, Status, Tool, answer_to_fault, fixed_answer};
use formula_reader::files::problem_is_within;
use formula_reader::{Problem, read_problem};
pub use laws::impossible_antecedents_entail;
use rule_table::antecedent;
use sat_pairs::{Limits, PairFault, StatesFault, Table, base_pairs, satisfiable_within};
use std::alloc::Global;

/// The number of base pairs of all predicates above which `sat` gives up.
const PAIR_LIMIT: u32 = 100_000;

/// How much the states of a case, or of the antecedent, may be in size after some of its atoms; above that `sat` gives
/// up.
const STATES_LIMIT: u32 = 2_000_000;

// The line for a problem whose antecedent is satisfiable, or is not.
fn answer_to_question(alloc: Global, _problem: &Problem, yes: bool) -> Result<Answer, OutOfMemory>
    requires { IsTrue yes ↔ IsSatisfiable _problem.now.defs.list (antecedent _problem.now.goal) }
    ensures said { IfOk result (λ a. IsSaid _problem.now a.status a.text.items) }
    ensures ending { IfOk result (λ a. is_answer a.status ≡ true) }
{
    if yes {
        fixed_answer(alloc, Status::Success, "satisfiable\n")
    } else {
        fixed_answer(alloc, Status::Refused, "unsatisfiable\n")
    }
}

// The answer to a problem with this table.
fn answer_by_table(alloc: Global, problem: &Problem, table: &Table) -> Result<Answer, OutOfMemory>
    requires closed { AreCases problem.now.defs.list }
    requires fields { Each HasFields (antecedent problem.now.goal).spatial }
    requires table { IsTable problem.now.defs.list table.now }
    ensures said { IfOk result (λ a. IsStatesAnswer problem.now a.status a.text.items) }
    ensures ending { IfOk result (λ a. is_answer a.status ≡ true) }
{
    let heap = antecedent(&problem.goal);
    match satisfiable_within(alloc, &problem.defs, table, heap, STATES_LIMIT as usize) {
        Ok(yes) => answer_to_question(alloc, problem, yes),
        Err(StatesFault::TooManyStates) => fixed_answer(alloc, Status::Limit, "limit states\n"),
        Err(StatesFault::OutOfMemory) => Err(OutOfMemory),
    }
}

// The answer to a problem.
fn answer_to_problem(alloc: Global, problem: &Problem) -> Result<Answer, OutOfMemory>
    ensures said { IfOk result (λ a. IsPairsAnswer problem.now a.status a.text.items) }
    ensures ending { IfOk result (λ a. is_answer a.status ≡ true) }
{
    problem_is_within(problem);
    let limits = Limits {
        pairs: PAIR_LIMIT,
        states: STATES_LIMIT,
    };
    match base_pairs(alloc, &problem.defs, limits) {
        Ok(table) => answer_by_table(alloc, problem, &table),
        Err(PairFault::TooManyPairs) => fixed_answer(alloc, Status::Limit, "limit pairs\n"),
        Err(PairFault::TooManyStates) => fixed_answer(alloc, Status::Limit, "limit pairs\n"),
        Err(PairFault::OutOfMemory) => Err(OutOfMemory),
    }
}

/// The command `sat`.
pub struct Satisfier;

impl Tool for Satisfier {
    ghost use Rattle.command_answers.specs.Answers.{IsAsked};

    ghost answers = { λ _. IsAsked };

    fn answer(&self, alloc: Global, input: &[u8]) -> Result<Answer, OutOfMemory> {
        match read_problem(alloc, input) {
            Ok(problem) => answer_to_problem(alloc, &problem),
            Err(fault) => answer_to_fault(alloc, fault),
        }
    }
}
