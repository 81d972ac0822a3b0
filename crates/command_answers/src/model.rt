//! The answers of the command `model`: do a given stack and heap satisfy a formula?

ghost use Rattle.std.specs.Prelude.{◌≡◌, ◌↔◌, ◌∷◌, [], IfOk, IsTrue, Some, None, true};
ghost use Rattle.model_check.specs.FirstPlaces.{IsFirstPlace};
ghost use Rattle.cyc_runs.specs.Endings.{is_answer};
ghost use Rattle.command_answers.specs.ModelAnswers.{IsSatisfying, IsSaid, IsModelAnswer, place_text};

use cyc_basics::memory::OutOfMemory;
use cyc_runs::texts::Line;
use cyc_runs::{Answer, Status, Tool, answer_to_fault, fixed_answer};
use model_check::{Place, constructive, satisfied};
use model_file::{Model, read_model};
use std::alloc::Global;

/// The line for the first place that is not constructive: a case of the definitions, or one of the asked formulas.
pub fn place_line(alloc: Global, place: Place) -> Result<Vec<u8>, OutOfMemory>
    ensures { IfOk result (λ bytes. bytes.items ≡ place_text place) }
{
    let mut line = Line::new(alloc);
    match place {
        Place::Case(pred, case) => {
            line.text("ill-formed constructive case ")?;
            line.number(pred as u64)?;
            line.text(" ")?;
            line.number(case as u64)?;
            line.end()
        }
        Place::Ask(formula) => {
            line.text("ill-formed constructive ask ")?;
            line.number(formula as u64)?;
            line.end()
        }
    }
}

// The answer to a model with a place that is not constructive.
fn answer_to_place(alloc: Global, _model: &Model, place: Place) -> Result<Answer, OutOfMemory>
    requires { IsFirstPlace _model.now.defs.list (_model.now.ask ∷ []) (Some place) }
    ensures said { IfOk result (λ a. IsModelAnswer _model.now a.status a.text.items) }
    ensures ending { IfOk result (λ a. is_answer a.status ≡ true) }
{
    let text = place_line(alloc, place)?;
    Ok(Answer {
        status: Status::IllFormed,
        text,
    })
}

// The line for a model that is one, or is not.
fn answer_to_question(alloc: Global, _model: &Model, yes: bool) -> Result<Answer, OutOfMemory>
    requires { IsTrue yes ↔ IsSatisfying _model.now }
    ensures said { IfOk result (λ a. IsSaid _model.now a.status a.text.items) }
    ensures ending { IfOk result (λ a. is_answer a.status ≡ true) }
{
    if yes {
        fixed_answer(alloc, Status::Success, "holds\n")
    } else {
        fixed_answer(alloc, Status::Refused, "fails\n")
    }
}

// The answer to a model all of whose formulas are constructive.
fn answer_to_constructive(alloc: Global, model: &Model) -> Result<Answer, OutOfMemory>
    requires { IsFirstPlace model.now.defs.list (model.now.ask ∷ []) None }
    ensures said { IfOk result (λ a. IsModelAnswer model.now a.status a.text.items) }
    ensures ending { IfOk result (λ a. is_answer a.status ≡ true) }
{
    let yes = satisfied(alloc, &model.defs, &model.stack, &model.heap, &model.ask)?;
    answer_to_question(alloc, model, yes)
}

// The answer to a model.
fn answer_to_model(alloc: Global, model: &Model) -> Result<Answer, OutOfMemory>
    ensures said { IfOk result (λ a. IsModelAnswer model.now a.status a.text.items) }
    ensures ending { IfOk result (λ a. is_answer a.status ≡ true) }
{
    match constructive(alloc, &model.defs, &model.ask)? {
        Some(place) => answer_to_place(alloc, model, place),
        None => answer_to_constructive(alloc, model),
    }
}

/// The command `model`.
pub struct ModelChecker;

impl Tool for ModelChecker {
    ghost use Rattle.command_answers.specs.ModelAnswers.{IsModelled};

    ghost answers = { λ _. IsModelled };

    fn answer(&self, alloc: Global, input: &[u8]) -> Result<Answer, OutOfMemory> {
        match read_model(alloc, input) {
            Ok(model) => answer_to_model(alloc, &model),
            Err(fault) => answer_to_fault(alloc, fault),
        }
    }
}
