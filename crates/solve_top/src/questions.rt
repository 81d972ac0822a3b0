// The answer to a question for a frame.
ghost use Rattle.std.specs.Prelude.{◌≡◌, ◌≤◌, ◌<◌, ◌-◌, ◌^◌, length, Ok, IfOk, true};
ghost use Rattle.cyc_runs.specs.Endings.{is_answer};
ghost use Rattle.cyc_runs.specs.Runs.{input_limit};
ghost use Rattle.formula_reader.specs.Reading.{IsRead};
ghost use Rattle.command_answers.specs.Answers.{IsPossible};
ghost use Rattle.solve_top.specs.Frames.{HasNoFrame, IsFound};
ghost use Rattle.solve_top.specs.Answers.{IsFrameAnswer, IsFrameSaid};

use crate::answers::{answer_to_text, certified};
use crate::explanations::{Notes, Part};
use crate::findings::{Finding, FoundFrame, finding_of};
use crate::frameless::frameless_model;
use crate::notes::{notes_on_model, notes_on_proof};
use crate::possibilities::{Possibility, possibility_of_problem};
use crate::scripts::told;
use cyc_basics::memory::OutOfMemory;
use cyc_runs::{Answer, Status};
use formula_reader::{Problem, read_problem};
use frames::questions::plain_text;
use model_file::{Model, write_model};
use proof_file::texts::write_file;
use std::alloc::Global;

/// The problem that says what is left, and the proof.
fn answer_to_frame(
    alloc: Global,
    problem: &Problem,
    found: &FoundFrame,
) -> Result<Answer, OutOfMemory>
    requires is { IsFound problem.now found.now }
    requires possible { IsPossible problem.now }
    ensures said { IfOk result (λ a. IsFrameSaid problem.now a.status a.text.items) }
    ensures ending { IfOk result (λ a. is_answer a.status ≡ true) }
{
    let notes = notes_on_proof(alloc, &found.text, &found.proof)?;
    let proof = write_file(alloc, &found.proof.file)?;
    let text = told(alloc, "holds\n", &notes, &found.text, &proof)?;
    Ok(Answer {
        status: Status::Success,
        text,
    })
}

/// The model that shows that there is no frame.
fn answer_to_model(
    alloc: Global,
    plain: &[u8],
    problem: &Problem,
    model: &Model,
) -> Result<Answer, OutOfMemory>
    requires short { length plain.now < 2 ^ 32 - 1 }
    requires none { HasNoFrame problem.now model.now }
    ensures said { IfOk result (λ a. IsFrameSaid problem.now a.status a.text.items) }
    ensures ending { IfOk result (λ a. is_answer a.status ≡ true) }
{
    let notes = notes_on_model(alloc, plain, model)?;
    let file = write_model(alloc, model)?;
    let text = certified(alloc, "fails\n", &notes, &file)?;
    Ok(Answer {
        status: Status::Refused,
        text,
    })
}

fn answer_to_nothing(alloc: Global, problem: &Problem) -> Result<Answer, OutOfMemory>
    ensures said { IfOk result (λ a. IsFrameSaid problem.now a.status a.text.items) }
    ensures ending { IfOk result (λ a. is_answer a.status ≡ true) }
{
    let mut notes = Notes::new(alloc);
    notes.line(&[Part::Text("no frame was found, and no model that shows that there is none")])?;
    let text = certified(alloc, "unknown\n", &notes, &[])?;
    Ok(Answer {
        status: Status::NotFound,
        text,
    })
}

fn answer_to_impossible(alloc: Global, problem: &Problem) -> Result<Answer, OutOfMemory>
    requires { ¬ IsPossible problem.now }
    ensures said { IfOk result (λ a. IsFrameSaid problem.now a.status a.text.items) }
    ensures ending { IfOk result (λ a. is_answer a.status ≡ true) }
{
    let notes = Notes::new(alloc);
    let text = certified(alloc, "holds antecedent unsatisfiable\n", &notes, &[])?;
    Ok(Answer {
        status: Status::Success,
        text,
    })
}

/// The answer where something satisfies the antecedent.
fn answer_to_possible(
    alloc: Global,
    input: &[u8],
    plain: &[u8],
    problem: &Problem,
    effort: u32,
) -> Result<Answer, OutOfMemory>
    requires short { length plain.now < 2 ^ 32 - 1 }
    requires possible { IsPossible problem.now }
    ensures said { IfOk result (λ a. IsFrameSaid problem.now a.status a.text.items) }
    ensures ending { IfOk result (λ a. is_answer a.status ≡ true) }
{
    match finding_of(alloc, input, plain, problem, effort)? {
        Finding::Frame(found) => answer_to_frame(alloc, problem, &found),
        Finding::NoFrame(model) => answer_to_model(alloc, plain, problem, &model),
        Finding::Nothing => answer_to_nothing(alloc, problem),
    }
}

/// The answer where it is not known whether something satisfies the antecedent: that there is no frame, or nothing.
fn answer_to_doubtful(
    alloc: Global,
    plain: &[u8],
    problem: &Problem,
    effort: u32,
) -> Result<Answer, OutOfMemory>
    requires { length plain.now < 2 ^ 32 - 1 }
    ensures said { IfOk result (λ a. IsFrameSaid problem.now a.status a.text.items) }
    ensures ending { IfOk result (λ a. is_answer a.status ≡ true) }
{
    match frameless_model(alloc, problem, effort)? {
        Some(model) => answer_to_model(alloc, plain, problem, &model),
        None => answer_to_nothing(alloc, problem),
    }
}

/// The answer to a question that speaks of the problem of this text.
fn answer_to_question(
    alloc: Global,
    input: &[u8],
    plain: &[u8],
    problem: &Problem,
    effort: u32,
) -> Result<Answer, OutOfMemory>
    requires read { IsRead plain.now (Ok problem.now) }
    requires short { length plain.now < 2 ^ 32 - 1 }
    ensures said { IfOk result (λ a. IsFrameSaid problem.now a.status a.text.items) }
    ensures ending { IfOk result (λ a. is_answer a.status ≡ true) }
{
    match possibility_of_problem(alloc, plain, problem)? {
        Possibility::Possible => answer_to_possible(alloc, input, plain, problem, effort),
        Possibility::Impossible => answer_to_impossible(alloc, problem),
        Possibility::Unknown => answer_to_doubtful(alloc, plain, problem, effort),
    }
}

/// The answer to an input that asks for a frame.
pub fn answer_to_frame_text(alloc: Global, input: &[u8], effort: u32) -> Result<Answer, OutOfMemory>
    requires { length input.now ≤ input_limit }
    ensures said { IfOk result (λ a. IsFrameAnswer input.now a.status a.text.items) }
    ensures ending { IfOk result (λ a. is_answer a.status ≡ true) }
{
    let plain = plain_text(alloc, input)?;
    match read_problem(alloc, &plain) {
        Ok(problem) => answer_to_question(alloc, input, &plain, &problem, effort),
        Err(fault) => answer_to_text(alloc, &plain, fault),
    }
}
