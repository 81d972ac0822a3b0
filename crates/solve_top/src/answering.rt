// The answer to an input.
ghost use Rattle.std.specs.Prelude.{◌≡◌, ◌≤◌, length, Ok, IfOk, true, false};
ghost use Rattle.cyc_runs.specs.Endings.{is_answer};
ghost use Rattle.cyc_runs.specs.Runs.{input_limit};
ghost use Rattle.solve_top.specs.Answers.{IsAnswerTo, IsProblemAnswer};

use crate::answers::{answer_to_run, answer_to_solution, answer_to_text};
use crate::inputs::is_run_text;
use crate::notes::notes_on;
use crate::questions::answer_to_frame_text;
use crate::scripts::answer_to_script;
use cyc_basics::memory::OutOfMemory;
use cyc_runs::{Answer, Tool};
use formula_reader::{Problem, read_problem};
use frames::questions::is_frame_text;
use run_file::read_run;
use script_answers::is_script;
use solver::solve;
use std::alloc::Global;

/// What is found of a problem, with notes on it.
fn answer_to_problem(
    alloc: Global,
    input: &[u8],
    problem: &Problem,
    effort: u32,
) -> Result<Answer, OutOfMemory>
    requires { length input.now ≤ input_limit }
    ensures said { IfOk result (λ a. IsProblemAnswer (Ok problem.now) a.status a.text.items) }
    ensures ending { IfOk result (λ a. is_answer a.status ≡ true) }
{
    let solution = solve(alloc, problem, effort)?;
    let notes = notes_on(alloc, input, problem, &solution, effort)?;
    answer_to_solution(alloc, &solution, &notes)
}

fn answer_to_problem_text(alloc: Global, input: &[u8], effort: u32) -> Result<Answer, OutOfMemory>
    requires { length input.now ≤ input_limit }
    ensures said { IfOk result (λ a. IsAnswerTo false input.now a.status a.text.items) }
    ensures ending { IfOk result (λ a. is_answer a.status ≡ true) }
{
    match read_problem(alloc, input) {
        Ok(problem) => answer_to_problem(alloc, input, &problem, effort),
        Err(fault) => answer_to_text(alloc, input, fault),
    }
}

fn answer_to_run_text(alloc: Global, input: &[u8]) -> Result<Answer, OutOfMemory>
    requires { length input.now ≤ input_limit }
    ensures said { IfOk result (λ a. IsAnswerTo true input.now a.status a.text.items) }
    ensures ending { IfOk result (λ a. is_answer a.status ≡ true) }
{
    match read_run(alloc, input) {
        Ok(run) => answer_to_run(alloc, &run),
        Err(fault) => answer_to_text(alloc, input, fault),
    }
}

/// The answer to a problem, to a script or to a question for a frame, with an effort from 1 to 9, or to a run.
#[derive(Clone, Copy)]
pub struct Solver {
    pub effort: u32,
}

impl Tool for Solver {
    ghost use Rattle.solve_top.specs.Answers.{IsSolved};

    ghost answers = { λ solver. IsSolved };

    fn answer(&self, alloc: Global, input: &[u8]) -> Result<Answer, OutOfMemory> {
        if is_script(input) {
            answer_to_script(alloc, input, self.effort)
        } else if is_frame_text(alloc, input)? {
            answer_to_frame_text(alloc, input, self.effort)
        } else if is_run_text(alloc, input)? {
            answer_to_run_text(alloc, input)
        } else {
            answer_to_problem_text(alloc, input, self.effort)
        }
    }
}
