// Solutions and faults as answers.
ghost use Rattle.std.specs.Prelude.{◌≡◌, ◌↔◌, IfOk, IsTrue, true};
ghost use Rattle.cyc_runs.specs.Endings.{is_answer};
ghost use Rattle.solver.specs.Runs.{IsRight};
ghost use Rattle.solve_top.specs.Answers.{IsCertified, IsExplained, IsRerun, IsSaid, text_of_refutation};

use crate::explanations::{Notes, explained};
use cyc_basics::memory::OutOfMemory;
use cyc_lex::ReadFault;
use cyc_runs::{Answer, Status, answer_to_fault, fixed_answer};
use general_models::CheckFault;
use model_file::write_model;
use proof_file::texts::write_file;
use run_file::{RunFile, write_run};
use solver::{Refutation, Solution, is_right};
use std::alloc::Global;

/// The first line, the notes, and the certificate.
pub fn certified(
    alloc: Global,
    first: &str,
    notes: &Notes,
    certificate: &[u8],
) -> Result<Vec<u8>, OutOfMemory>
    ensures { IfOk result (λ text. IsCertified first.now certificate.now text.items) }
{
    let mut text = Vec::from_slice(alloc, first.as_bytes())?;
    text.extend_from_slice(notes.as_slice())?;
    text.extend_from_slice(certificate)?;
    Ok(text)
}

/// The file of a refutation.
pub fn refuting_text(alloc: Global, refutation: &Refutation) -> Result<Vec<u8>, OutOfMemory>
    ensures { IfOk result (λ text. text.items ≡ text_of_refutation refutation.now) }
{
    match refutation {
        Refutation::CounterModel(model) => write_model(alloc, model),
        Refutation::FaultyRun(run) => write_run(alloc, run),
    }
}

/// What is found, with notes on it.
pub fn answer_to_solution(
    alloc: Global,
    solution: &Solution,
    notes: &Notes,
) -> Result<Answer, OutOfMemory>
    ensures said { IfOk result (λ a. IsSaid solution.now a.status a.text.items) }
    ensures ending { IfOk result (λ a. is_answer a.status ≡ true) }
{
    let (status, text) = match solution {
        Solution::Proved(found) => {
            let proof = write_file(alloc, &found.file)?;
            (Status::Success, certified(alloc, "holds\n", notes, &proof)?)
        }
        Solution::Impossible => (
            Status::Success,
            certified(alloc, "holds antecedent unsatisfiable\n", notes, &[])?,
        ),
        Solution::Refuted(refutation) => {
            let file = refuting_text(alloc, refutation)?;
            (Status::Refused, certified(alloc, "fails\n", notes, &file)?)
        }
        Solution::Unknown { stuck: _ } => {
            (Status::NotFound, certified(alloc, "unknown\n", notes, &[])?)
        }
    };
    Ok(Answer { status, text })
}

/// Whether a run is as its file tells.
pub fn answer_to_run(alloc: Global, run: &RunFile) -> Result<Answer, OutOfMemory>
    ensures said { IfOk result (λ a. IsRerun run.now a.status a.text.items) }
    ensures ending { IfOk result (λ a. is_answer a.status ≡ true) }
{
    match is_right(alloc, run) {
        Ok(true) => fixed_answer(alloc, Status::Success, "holds\n"),
        Ok(false) => fixed_answer(alloc, Status::Refused, "fails\n"),
        Err(CheckFault::TooMuch) => fixed_answer(alloc, Status::NotFound, "unknown\n"),
        Err(CheckFault::OutOfMemory) => Err(OutOfMemory),
    }
}

/// The line of a fault, and what explains it.
pub fn answer_to_text(alloc: Global, input: &[u8], fault: ReadFault) -> Result<Answer, OutOfMemory>
    ensures said { IfOk result (λ a. IsExplained fault a.status a.text.items) }
    ensures ending { IfOk result (λ a. is_answer a.status ≡ true) }
{
    let mut answer = answer_to_fault(alloc, fault)?;
    let lines = explained(alloc, input, fault)?;
    answer.text.extend_from_slice(&lines)?;
    Ok(answer)
}
