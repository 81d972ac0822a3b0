//! The drawing of an input.
ghost use Rattle.std.specs.Prelude.{◌≡◌, ◌<◌, ◌-◌, ◌^◌, length, map, IfOk, true};
ghost use Rattle.cyc_runs.specs.Endings.{is_answer};
ghost use Rattle.draw_top.specs.Answers.{IsAloneAnswer, IsFitAnswer, IsProblemAnswer, IsProblemFault, IsTextOf};
ghost use Rattle.draw_top.specs.Answers.{IsWithAnswer, drawing_in};
ghost use Rattle.draw_top.specs.Graphs.{drawing_of};
ghost use Rattle.proof_picture.specs.Pictures.{box_of};

use crate::drawing::graph_of;
use crate::folds::folded_graph;
use crate::graph::Graph;
use crate::inputs::{Misfit, misfit_of, parts_of};
use crate::named::named_text;
use crate::words::View;
use crate::writing::write_graph;
use cyc_basics::memory::OutOfMemory;
use cyc_lex::ReadFault;
use cyc_runs::{Answer, Status, Tool, answer_to_fault, fixed_answer};
use formula_reader::read_problem;
use proof_check::check;
use proof_file::ProofFile;
use proof_file::texts::read_file;
use proof_picture::folds::fold_picture;
use proof_picture::{Picture, picture_of};
use std::alloc::Global;

/// The graph of a picture in a view.
pub fn graph_in(alloc: Global, view: View, picture: Picture) -> Result<Graph, OutOfMemory>
    requires { length picture.boxes.items < 2 ^ 32 }
    ensures { IfOk result (λ g. drawing_of g
        ≡ drawing_in view (map box_of picture.boxes.items) picture.is_large) }
{
    match view {
        View::Whole => graph_of(alloc, picture),
        View::Folded => {
            let folded = fold_picture(alloc, &picture)?;
            folded_graph(alloc, folded)
        }
    }
}

/// The text of the picture of a file in a view, with what the check says of it in red.
fn text_of(alloc: Global, view: View, file: &ProofFile) -> Result<Vec<u8>, OutOfMemory>
    ensures { IfOk result (λ text. IsTextOf view file.now text.items) }
{
    let verdict = check(alloc, file)?;
    let picture = picture_of(alloc, file, &verdict)?;
    let graph = graph_in(alloc, view, picture)?;
    write_graph(alloc, &graph)
}

/// The answer to an input that is a proof alone.
fn answer_alone(alloc: Global, view: View, input: &[u8]) -> Result<Answer, OutOfMemory>
    requires { length input.now < 2 ^ 32 - 1 }
    ensures answered { IfOk result (λ a. IsAloneAnswer view input.now a.status a.text.items) }
    ensures ending { IfOk result (λ a. is_answer a.status ≡ true) }
{
    match read_file(alloc, input) {
        Ok(file) => {
            let text = text_of(alloc, view, &file)?;
            let status = Status::Success;
            Ok(Answer { status, text })
        }
        Err(fault) => answer_to_fault(alloc, fault),
    }
}

/// The answer to a fault of the problem behind a proof: as to one of an input, behind the word `problem`.
fn answer_to_problem_fault(alloc: Global, fault: ReadFault) -> Result<Answer, OutOfMemory>
    ensures answered { IfOk result (λ a. IsProblemFault fault a.status a.text.items) }
    ensures ending { IfOk result (λ a. is_answer a.status ≡ true) }
{
    let answer = answer_to_fault(alloc, fault)?;
    let mut text = Vec::from_slice(alloc, "problem ".as_bytes())?;
    text.extend_from_slice(answer.text.as_slice())?;
    Ok(Answer {
        status: answer.status,
        text,
    })
}

/// The answer to a proof that was read, and to the problem behind it, where this does not fit.
fn answer_to_fit(
    alloc: Global,
    view: View,
    file: &ProofFile,
    problem: &[u8],
    misfit: Option<Misfit>,
) -> Result<Answer, OutOfMemory>
    requires { length problem.now < 2 ^ 32 - 1 }
    ensures answered { IfOk result (λ a. IsFitAnswer view file.now problem.now misfit a.status a.text.items) }
    ensures ending { IfOk result (λ a. is_answer a.status ≡ true) }
{
    match misfit {
        None => {
            let text = named_text(alloc, view, file, problem)?;
            let status = Status::Success;
            Ok(Answer { status, text })
        }
        Some(Misfit::Definitions) => {
            fixed_answer(alloc, Status::IllFormed, "ill-formed problem definitions\n")
        }
        Some(Misfit::Program) => {
            fixed_answer(alloc, Status::IllFormed, "ill-formed problem program\n")
        }
        Some(Misfit::Goal) => fixed_answer(alloc, Status::IllFormed, "ill-formed problem goal\n"),
    }
}

/// The answer to a proof that was read, and to the problem behind it.
fn answer_to_problem(
    alloc: Global,
    view: View,
    file: &ProofFile,
    problem: &[u8],
) -> Result<Answer, OutOfMemory>
    requires { length problem.now < 2 ^ 32 - 1 }
    ensures answered { IfOk result (λ a. IsProblemAnswer view file.now problem.now a.status a.text.items) }
    ensures ending { IfOk result (λ a. is_answer a.status ≡ true) }
{
    match read_problem(alloc, problem) {
        Ok(read) => answer_to_fit(alloc, view, file, problem, misfit_of(file, &read)),
        Err(fault) => answer_to_problem_fault(alloc, fault),
    }
}

/// The answer to a proof, and to the problem behind it.
fn answer_with(
    alloc: Global,
    view: View,
    proof: &[u8],
    problem: &[u8],
) -> Result<Answer, OutOfMemory>
    requires proof { length proof.now < 2 ^ 32 - 1 }
    requires problem { length problem.now < 2 ^ 32 - 1 }
    ensures answered { IfOk result (λ a. IsWithAnswer view proof.now problem.now a.status a.text.items) }
    ensures ending { IfOk result (λ a. is_answer a.status ≡ true) }
{
    match read_file(alloc, proof) {
        Ok(file) => answer_to_problem(alloc, view, &file, problem),
        Err(fault) => answer_to_fault(alloc, fault),
    }
}

/// The program `draw`, asked for a view.
#[derive(Clone, Copy)]
pub struct Drawer {
    pub view: View,
}

impl Tool for Drawer {
    ghost use Rattle.draw_top.specs.Answers.{IsDrawn};

    ghost answers = { λ drawer. IsDrawn drawer.view };

    fn answer(&self, alloc: Global, input: &[u8]) -> Result<Answer, OutOfMemory> {
        match parts_of(alloc, input)? {
            None => answer_alone(alloc, self.view, input),
            Some((proof, problem)) => answer_with(alloc, self.view, proof, problem),
        }
    }
}
