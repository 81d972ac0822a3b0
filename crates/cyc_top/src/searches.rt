// Answers to a search, by its input.
ghost use Rattle.std.specs.Prelude.{◌≡◌, ◌≤◌, IfOk, true};
ghost use Rattle.cyc_runs.specs.Endings.{is_answer};
ghost use Rattle.cyc_top.specs.Answers.{proved_status, proved_text};

use cyc_basics::memory::OutOfMemory;
use cyc_runs::texts::not_found_line;
use cyc_runs::{Answer, Status, Tool, answer_to_fault, fixed_answer};
use derivations::search::DERIVATION_LIMIT;
use formula_reader::read_problem;
use proof_file::texts::write_file;
use proof_search::{Proved, prove};
use std::alloc::Global;

// The proof that was found, as a file has it, or the line that says why there is none.
fn answer_to_proved(alloc: Global, depth: u32, proved: &Proved) -> Result<Answer, OutOfMemory>
    ensures status { IfOk result (λ a. a.status ≡ proved_status proved.now) }
    ensures ending { IfOk result (λ a. is_answer a.status ≡ true) }
    ensures text { IfOk result (λ a. a.text.items ≡ proved_text depth proved.now) }
{
    let (status, text) = match proved {
        Proved::Found(file) => (Status::Success, write_file(alloc, file)?),
        Proved::NotFound => (Status::NotFound, not_found_line(alloc, depth)?),
        Proved::TooManyDerivations => {
            return fixed_answer(alloc, Status::Limit, "limit derivations\n");
        }
        Proved::TooManyStates => return fixed_answer(alloc, Status::Limit, "limit states\n"),
    };
    Ok(Answer { status, text })
}

/// The command `prove` at a depth, 1 to 40.
#[derive(Clone, Copy)]
pub struct Prover {
    depth: u32,
    ghost within: { depth ≤ 40 },
}

impl Prover {
    /// A search within this depth.
    pub fn new(depth: u32) -> Prover
        requires { depth ≤ 40 }
        ensures { result.depth ≡ depth }
    {
        Prover { depth }
    }
}

impl Tool for Prover {
    ghost use Rattle.cyc_top.specs.Answers.{IsSearched};

    ghost answers = { λ prover. IsSearched prover.depth };

    fn answer(&self, alloc: Global, input: &[u8]) -> Result<Answer, OutOfMemory> {
        match read_problem(alloc, input) {
            Ok(problem) => {
                let proved = prove(alloc, &problem, self.depth, DERIVATION_LIMIT)?;
                answer_to_proved(alloc, self.depth, &proved)
            }
            Err(fault) => answer_to_fault(alloc, fault),
        }
    }
}
