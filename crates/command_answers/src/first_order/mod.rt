//! The answers of the commands of first-order logic with inductive definitions: is a given proof correct (`fo-check`),
//! and is there one of a problem (`fo`)?

ghost use Rattle.std.specs.Prelude.{◌≡◌, IfOk, true};
ghost use Rattle.cyc_runs.specs.Endings.{is_answer};
ghost use Rattle.fo_logic.specs.Files.{IsFoProof};
ghost use Rattle.command_answers.specs.FirstOrderAnswers.{IsSaid, verdict_status, verdict_text};

mod lines;
mod names;
mod searches;

use cyc_basics::memory::OutOfMemory;
use cyc_runs::texts::path_refused_line;
use cyc_runs::{Answer, Status, Tool, answer_to_fault, fixed_answer};
use fo_file::{FoFile, read_fo};
use fo_logic::{FoVerdict, check_fo};
use lines::{accepted_line, node_refused_line};
pub use searches::FirstOrderProver;
use std::alloc::Global;

fn answer_to_verdict(
    alloc: Global,
    file: &FoFile,
    verdict: FoVerdict,
) -> Result<Answer, OutOfMemory>
    ensures status { IfOk result (λ a. a.status ≡ verdict_status verdict) }
    ensures text { IfOk result (λ a. a.text.items ≡ verdict_text file.now.nodes verdict) }
    ensures ending { IfOk result (λ a. is_answer a.status ≡ true) }
{
    let (status, text) = match verdict {
        FoVerdict::Accepted => (
            Status::Success,
            accepted_line(alloc, file.nodes.as_slice())?,
        ),
        FoVerdict::RuleRefused { node, fault } => {
            (Status::Refused, node_refused_line(alloc, node, fault)?)
        }
        FoVerdict::PathRefused { lasso } => (Status::Refused, path_refused_line(alloc, &lasso)?),
        FoVerdict::TooManyStates => return fixed_answer(alloc, Status::Limit, "limit states\n"),
    };
    Ok(Answer { status, text })
}

// The answer to a proof.
fn answer_to_proof(alloc: Global, file: &FoFile) -> Result<Answer, OutOfMemory>
    requires { IsFoProof file.now }
    ensures said { IfOk result (λ a. IsSaid file.now a.status a.text.items) }
    ensures ending { IfOk result (λ a. is_answer a.status ≡ true) }
{
    let verdict = check_fo(alloc, file)?;
    answer_to_verdict(alloc, file, verdict)
}

/// The command `fo-check`.
pub struct FirstOrderChecker;

impl Tool for FirstOrderChecker {
    ghost use Rattle.command_answers.specs.FirstOrderAnswers.{IsFirstOrderChecked};

    ghost answers = { λ _. IsFirstOrderChecked };

    fn answer(&self, alloc: Global, input: &[u8]) -> Result<Answer, OutOfMemory> {
        match read_fo(alloc, input) {
            Ok(file) => answer_to_proof(alloc, &file),
            Err(fault) => answer_to_fault(alloc, fault),
        }
    }
}
