// The answer to an entailment, and the command.
ghost use Rattle.std.specs.Prelude.{◌≡◌, ◌≤◌, IfOk, true};
ghost use Rattle.heap_formula.specs.declared.judgements.Judgement.{Judgement};
ghost use Rattle.cyc_runs.specs.Endings.{is_answer};
ghost use Rattle.model_file.specs.Versions.{version_for};
ghost use Rattle.command_answers.specs.DisproveAnswers.{not_found_text, IsEntailmentAnswer, IsGoalAnswer};

use crate::disprove::model_files::model_text;
use crate::model::place_line;
use counter_model::{Refuted, refute};
use cyc_basics::memory::OutOfMemory;
use cyc_runs::texts::Line;
use cyc_runs::{Answer, Status, Tool, answer_to_fault, fixed_answer};
use formula_reader::files::problem_is_within;
use formula_reader::{Problem, read_problem};
use heap_formula::{Disjuncts, Heap, Judgement};
use std::alloc::Global;

/// The line for an entailment that has no counter-model with so many addresses.
fn not_found_line(alloc: Global, cells: u32) -> Result<Vec<u8>, OutOfMemory>
    ensures { IfOk result (λ bytes. bytes.items ≡ not_found_text cells) }
{
    let mut text = Line::new(alloc);
    text.text("not found cells ")?;
    text.number(cells as u64)?;
    text.end()
}

// The answer to a goal that is an entailment.
fn answer_to_entailment(
    alloc: Global,
    problem: &Problem,
    antecedent: &Heap,
    disjuncts: &Disjuncts,
    cells: u32,
) -> Result<Answer, OutOfMemory>
    requires goal { problem.now.goal ≡ Judgement.Entail antecedent.now disjuncts.now }
    requires size { cells ≤ 4 }
    ensures said { IfOk result (λ a. IsEntailmentAnswer (version_for problem.now.version) cells problem.now.defs.list
        antecedent.now disjuncts.now a.status a.text.items) }
    ensures ending { IfOk result (λ a. is_answer a.status ≡ true) }
{
    problem_is_within(problem);
    match refute(alloc, &problem.defs, antecedent, disjuncts, cells)? {
        Refuted::TooManyUniversals => fixed_answer(alloc, Status::Limit, "limit universals\n"),
        Refuted::NotConstructive(place) => {
            let text = place_line(alloc, place)?;
            Ok(Answer {
                status: Status::IllFormed,
                text,
            })
        }
        Refuted::NotFound => {
            let text = not_found_line(alloc, cells)?;
            Ok(Answer {
                status: Status::NotFound,
                text,
            })
        }
        Refuted::Found(stack, heap) => {
            let text = model_text(alloc, problem, antecedent, disjuncts, cells, stack, heap)?;
            Ok(Answer {
                status: Status::Success,
                text,
            })
        }
    }
}

// The answer to a problem.
fn answer_to_problem(alloc: Global, problem: &Problem, cells: u32) -> Result<Answer, OutOfMemory>
    requires { cells ≤ 4 }
    ensures said { IfOk result (λ a. IsGoalAnswer (version_for problem.now.version) cells problem.now.defs.list
        problem.now.goal a.status a.text.items) }
    ensures ending { IfOk result (λ a. is_answer a.status ≡ true) }
{
    match &problem.goal {
        Judgement::Entail(antecedent, disjuncts) => {
            answer_to_entailment(alloc, problem, antecedent, disjuncts, cells)
        }
        Judgement::Term(_, _) => {
            fixed_answer(alloc, Status::IllFormed, "ill-formed judgement from\n")
        }
    }
}

/// The command `disprove` with so many addresses, 1 to 4.
#[derive(Clone, Copy)]
pub struct Disprover {
    cells: u32,
    ghost within: { (1 ≤ cells) × (cells ≤ 4) },
}

impl Disprover {
    /// A search for counter-models with so many addresses.
    pub fn new(cells: u32) -> Disprover
        requires some { 1 ≤ cells }
        requires few { cells ≤ 4 }
        ensures { result.cells ≡ cells }
    {
        Disprover { cells }
    }
}

impl Tool for Disprover {
    ghost use Rattle.command_answers.specs.DisproveAnswers.{IsDisproved};

    ghost answers = { λ disprover. IsDisproved disprover.cells };

    fn answer(&self, alloc: Global, input: &[u8]) -> Result<Answer, OutOfMemory> {
        match read_problem(alloc, input) {
            Ok(problem) => answer_to_problem(alloc, &problem, self.cells),
            Err(fault) => answer_to_fault(alloc, fault),
        }
    }
}
