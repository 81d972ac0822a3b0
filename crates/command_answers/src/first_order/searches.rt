// The answers of the command `fo`.
ghost use Rattle.std.specs.Prelude.{◌≡◌, ◌≤◌, IfOk, true};
ghost use Rattle.cyc_runs.specs.Endings.{is_answer};
ghost use Rattle.command_answers.specs.Searches.{HasText, proved_status, proved_text};

use cyc_basics::memory::OutOfMemory;
use cyc_runs::texts::not_found_line;
use cyc_runs::{Answer, Status, Tool, answer_to_fault, fixed_answer};
use derivations::search::DERIVATION_LIMIT;
use fo_file::{FoProblem, read_fo_problem, write_fo};
use fo_search::{FoProved, prove_fo};
use std::alloc::Global;

// The proof that was found, as a file has it, or the line that says why there is none.
fn answer_to_proved(alloc: Global, depth: u32, proved: &FoProved) -> Result<Answer, OutOfMemory>
    requires { HasText proved.now }
    ensures status { IfOk result (λ a. a.status ≡ proved_status proved.now) }
    ensures ending { IfOk result (λ a. is_answer a.status ≡ true) }
    ensures text { IfOk result (λ a. a.text.items ≡ proved_text depth proved.now) }
{
    let (status, text) = match proved {
        FoProved::Found(file) => (Status::Success, write_fo(alloc, file)?),
        FoProved::NotFound => (Status::NotFound, not_found_line(alloc, depth)?),
        FoProved::TooManyDerivations => {
            return fixed_answer(alloc, Status::Limit, "limit derivations\n");
        }
        FoProved::TooManyStates => return fixed_answer(alloc, Status::Limit, "limit states\n"),
    };
    Ok(Answer { status, text })
}

/// The command `fo` at a depth, 1 to 40.
#[derive(Clone, Copy)]
pub struct FirstOrderProver {
    depth: u32,
    ghost within: { depth ≤ 40 },
}

impl FirstOrderProver {
    ghost use Rattle.fo_file.specs.Questions.{IsFoQuestion};
    ghost use Rattle.fo_file.specs.Reading.{IsWritableProblem};
    ghost use Rattle.command_answers.specs.Searches.{IsSearchSaid};

    /// A search within this depth.
    pub fn new(depth: u32) -> FirstOrderProver
        requires { depth ≤ 40 }
        ensures { result.depth ≡ depth }
    {
        FirstOrderProver { depth }
    }

    // The answer to a problem that was read.
    fn answer_to_problem(&self, alloc: Global, problem: &FoProblem) -> Result<Answer, OutOfMemory>
        requires question { IsFoQuestion problem.now }
        requires writable { IsWritableProblem problem.now }
        ensures said { IfOk result (λ a. IsSearchSaid self.now.depth problem.now a.status a.text.items) }
        ensures ending { IfOk result (λ a. is_answer a.status ≡ true) }
    {
        let proved = prove_fo(alloc, problem, self.depth, DERIVATION_LIMIT)?;
        answer_to_proved(alloc, self.depth, &proved)
    }
}

impl Tool for FirstOrderProver {
    ghost use Rattle.command_answers.specs.Searches.{IsFirstOrderSearched};

    ghost answers = { λ prover. IsFirstOrderSearched prover.depth };

    fn answer(&self, alloc: Global, input: &[u8]) -> Result<Answer, OutOfMemory> {
        match read_fo_problem(alloc, input) {
            Ok(problem) => self.answer_to_problem(alloc, &problem),
            Err(fault) => answer_to_fault(alloc, fault),
        }
    }
}
