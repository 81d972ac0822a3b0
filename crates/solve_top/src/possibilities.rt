// Whether a problem's antecedent can be satisfied, by base pairs.
ghost use Rattle.std.specs.Prelude.{◌≤◌, length, IfOk, Ok};
ghost use Rattle.cyc_runs.specs.Runs.{input_limit};
ghost use Rattle.formula_reader.specs.Reading.{IsRead};
ghost use Rattle.solve_top.specs.Possibilities.{IsKnown, IsKnownOf};

use command_answers::sat::Satisfier;
use cyc_basics::memory::OutOfMemory;
use cyc_runs::{INPUT_LIMIT, Status, Tool};
use formula_reader::Problem;
use std::alloc::Global;

/// Whether some stack and heap satisfy an antecedent.
#[derive(Clone, Copy)]
pub enum Possibility {
    Possible,
    Impossible,
    Unknown,
}

/// Whether the antecedent of the problem with this text can be satisfied, as far as base pairs tell.
pub fn possibility_of(alloc: Global, problem: &[u8]) -> Result<Possibility, OutOfMemory>
    requires { length problem.now ≤ input_limit }
    ensures { IfOk result (IsKnown problem.now) }
{
    let answer = Satisfier.answer(alloc, problem)?;
    Ok(match answer.status {
        Status::Success => Possibility::Possible,
        Status::Refused => Possibility::Impossible,
        _ => Possibility::Unknown,
    })
}

/// The same of the problem that a text spells; of a text that is no input nothing is known.
pub fn possibility_of_problem(
    alloc: Global,
    text: &[u8],
    _problem: &Problem,
) -> Result<Possibility, OutOfMemory>
    requires { IsRead text.now (Ok _problem.now) }
    ensures { IfOk result (IsKnownOf _problem.now) }
{
    if text.len() > INPUT_LIMIT {
        return Ok(Possibility::Unknown);
    }
    possibility_of(alloc, text)
}
