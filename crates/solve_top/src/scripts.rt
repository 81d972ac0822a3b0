// The answer to a script.
ghost use Rattle.std.specs.Prelude.{◌≡◌, ◌≤◌, ◌⊎◌, ℕ, List, [], length, Ok, IfOk, IfSome, IsTrue, true};
ghost use Rattle.cyc_runs.specs.Endings.{is_answer};
ghost use Rattle.cyc_runs.specs.Runs.{input_limit};
ghost use Rattle.formula_reader.specs.Reading.{IsRead};
ghost use Rattle.formula_reader.specs.declared.problem.Problem.{Problem as ReadProblem};
ghost use Rattle.script_answers.specs.Asking.{IsGoalOfInput};
ghost use Rattle.solver.specs.Solutions.{IsSolution};
ghost use Rattle.solve_top.specs.Answers.{IsAsked, IsScriptAnswer, IsScriptSaid, IsSolvedScript};
ghost use Rattle.solve_top.specs.Answers.{is_entailment as is_entailment_goal, proof_text, sat_status as sat_ending};
ghost use Rattle.solve_top.specs.Answers.{text_of_refutation, unsat_status as unsat_ending};
ghost use Rattle.solve_top.specs.Possibilities.{IsKnownFor};

use crate::answers::refuting_text;
use crate::explanations::Notes;
use crate::notes::notes_on_script;
use crate::possibilities::{Possibility, possibility_of};
use cyc_basics::memory::OutOfMemory;
use cyc_lex::ReadFault;
use cyc_runs::{Answer, INPUT_LIMIT, Status, fixed_answer};
use definition_equality::are_same_definitions;
use formula_reader::{Problem, read_problem};
use heap_formula::{Judgement, is_same_judgement};
use proof_file::texts::write_file;
use script_answers::{Asked, AskedScript, asked_of_script};
use script_formulas::goals::Question;
use solver::{Solution, solve};
use std::alloc::Global;

/// The first line, notes, the text of the problem, and the certificate.
pub fn told(
    alloc: Global,
    first: &str,
    notes: &Notes,
    problem: &[u8],
    certificate: &[u8],
) -> Result<Vec<u8>, OutOfMemory>
    ensures { IfOk result (λ text. IsAsked first.now problem.now certificate.now text.items) }
{
    let mut text = Vec::from_slice(alloc, first.as_bytes())?;
    text.extend_from_slice(notes.as_slice())?;
    text.extend_from_slice(problem)?;
    text.extend_from_slice(certificate)?;
    Ok(text)
}

/// How a run ends that says that a script cannot be satisfied.
fn unsat_status(question: Question) -> Status
    ensures value { result ≡ unsat_ending question }
    ensures ending { is_answer result ≡ true }
{
    match question {
        Question::Entailment => Status::Success,
        Question::Satisfiability => Status::Refused,
    }
}

/// How a run ends that says that a script can be satisfied.
fn sat_status(question: Question) -> Status
    ensures value { result ≡ sat_ending question }
    ensures ending { is_answer result ≡ true }
{
    match question {
        Question::Entailment => Status::Refused,
        Question::Satisfiability => Status::Success,
    }
}

/// What is found of the problem that a script became.
fn answer_to_found(
    alloc: Global,
    question: Question,
    problem: &[u8],
    solution: &Solution,
    notes: &Notes,
) -> Result<Answer, OutOfMemory>
    ensures said { IfOk result (λ a. IsScriptSaid question problem.now solution.now a.status a.text.items) }
    ensures ending { IfOk result (λ a. is_answer a.status ≡ true) }
{
    let (status, text) = match solution {
        Solution::Proved(found) => {
            let proof = write_file(alloc, &found.file)?;
            let text = told(alloc, "unsat\n", notes, problem, &proof)?;
            (unsat_status(question), text)
        }
        Solution::Impossible => {
            let text = told(alloc, "unsat\n", notes, problem, &[])?;
            (unsat_status(question), text)
        }
        Solution::Refuted(refutation) => {
            let file = refuting_text(alloc, refutation)?;
            let text = told(alloc, "sat\n", notes, problem, &file)?;
            (sat_status(question), text)
        }
        Solution::Unknown { stuck: _ } => {
            let text = told(alloc, "unknown\n", notes, problem, &[])?;
            (Status::NotFound, text)
        }
    };
    Ok(Answer { status, text })
}

/// Whether a problem asks an entailment.
fn is_entailment(problem: &Problem) -> bool
    ensures { result ≡ is_entailment_goal problem.now.goal }
{
    match &problem.goal {
        Judgement::Entail(_, _) => true,
        Judgement::Term(_, _) => false,
    }
}

/// Whether a problem has just the definitions and the goal that a script became.
fn has_goal(problem: &Problem, asked: &AskedScript) -> bool
    ensures definitions { IsTrue result → problem.now.defs.list ≡ asked.now.asks.defs.list }
    ensures goal { IsTrue result → problem.now.goal ≡ asked.now.asks.goal }
{
    are_same_definitions(problem.defs.as_slice(), asked.asks.defs.as_slice())
        && is_same_judgement(&problem.goal, &asked.asks.goal)
}

/// The answer to a satisfiability that base pairs decide, without a certificate.
fn answer_to_known(
    alloc: Global,
    question: Question,
    problem: &[u8],
    known: Possibility,
    notes: &Notes,
) -> Result<Option<Answer>, OutOfMemory>
    requires { IsKnownFor question problem.now known }
    ensures said { (input : List ℕ) (p : ReadProblem) → IsRead problem.now (Ok p)
        → IsGoalOfInput input question p.defs.list p.goal
        → IfOk result (λ o. IfSome o (λ a. IsSolvedScript input a.status a.text.items)) }
    ensures ending { IfOk result (λ o. IfSome o (λ a. is_answer a.status ≡ true)) }
{
    let (status, text) = match known {
        Possibility::Possible => (Status::Success, told(alloc, "sat\n", notes, problem, &[])?),
        Possibility::Impossible => (
            Status::Refused,
            told(alloc, "unsat\n", notes, problem, &[])?,
        ),
        Possibility::Unknown => return Ok(None),
    };
    Ok(Some(Answer { status, text }))
}

/// What base pairs tell of a problem that asks a satisfiability.
fn known_for(alloc: Global, question: Question, text: &[u8]) -> Result<Possibility, OutOfMemory>
    requires { length text.now ≤ input_limit }
    ensures { IfOk result (IsKnownFor question text.now) }
{
    match question {
        Question::Entailment => Ok(Possibility::Unknown),
        Question::Satisfiability => possibility_of(alloc, text),
    }
}

/// The answer to the problem that a script became.
fn answer_to_asked(
    alloc: Global,
    asked: &AskedScript,
    problem: &Problem,
    effort: u32,
) -> Result<Answer, OutOfMemory>
    requires read { IsRead asked.now.text.items (Ok problem.now) }
    requires short { length asked.now.text.items ≤ input_limit }
    requires entailment { is_entailment_goal problem.now.goal ≡ true }
    ensures said { (input : List ℕ)
        → IsGoalOfInput input asked.now.asks.question problem.now.defs.list problem.now.goal
        → IfOk result (λ a. IsSolvedScript input a.status a.text.items) }
    ensures ending { IfOk result (λ a. is_answer a.status ≡ true) }
{
    let text = asked.text.as_slice();
    let question = asked.asks.question;
    let known = known_for(alloc, question, text)?;
    let solution = solve(alloc, problem, effort)?;
    let notes = notes_on_script(alloc, text, problem, &solution, effort)?;
    if let Solution::Unknown { stuck: _ } = &solution {
        if let Some(answer) = answer_to_known(alloc, question, text, known, &notes)? {
            return Ok(answer);
        }
    }
    answer_to_found(alloc, question, text, &solution, &notes)
}

/// The answer to a script whose problem has this text.
fn answer_to_script_text(
    alloc: Global,
    asked: &AskedScript,
    effort: u32,
) -> Result<Answer, OutOfMemory>
    ensures said { (input : List ℕ)
        → IsGoalOfInput input asked.now.asks.question asked.now.asks.defs.list asked.now.asks.goal
        → IfOk result (λ a. IsScriptAnswer input a.status a.text.items) }
    ensures ending { IfOk result (λ a. is_answer a.status ≡ true) }
{
    if asked.text.len() > INPUT_LIMIT {
        return fixed_answer(alloc, Status::Limit, "limit text\n");
    }
    match read_problem(alloc, &asked.text) {
        Ok(problem) if is_entailment(&problem) && has_goal(&problem, asked) => {
            answer_to_asked(alloc, asked, &problem, effort)
        }
        Err(ReadFault::OutOfMemory) => Err(OutOfMemory),
        _ => fixed_answer(alloc, Status::Limit, "limit text\n"),
    }
}

/// The answer to a script.
pub fn answer_to_script(alloc: Global, input: &[u8], effort: u32) -> Result<Answer, OutOfMemory>
    requires { length input.now ≤ input_limit }
    ensures said { IfOk result (λ a. IsScriptAnswer input.now a.status a.text.items) }
    ensures ending { IfOk result (λ a. is_answer a.status ≡ true) }
{
    match asked_of_script(alloc, input)? {
        Asked::Script(asked) => answer_to_script_text(alloc, &asked, effort),
        Asked::Refused(answer) => Ok(answer),
    }
}
