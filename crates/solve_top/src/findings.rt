// What is found of questions for frames: a problem that says what an antecedent holds beside what was asked for, or a
// model that shows that there is none.
ghost use Rattle.std.specs.Prelude.{◌≡◌, ◌++◌, ◌∷◌, [], ◌⊎◌, ◌<◌, ◌-◌, ◌^◌, List, length, IfOk, IsTrue};
ghost use Rattle.heap_formula.specs.Words.{Each};
ghost use Rattle.heap_formula.specs.declared.atoms.Pure.{Pure as PureAtom};
ghost use Rattle.heap_formula.specs.declared.atoms.Spatial.{Spatial as SpatialAtom};
ghost use Rattle.heap_formula.specs.Symbolic.{SymbolicHeap};
ghost use Rattle.solve_top.specs.Frames.{IsFrameOf, IsFramedGoal, IsJoined as IsPartAndMore, IsFinding, IsSoughtFrame};

use crate::frameless::frameless_model;
use cyc_basics::memory::OutOfMemory;
use cyc_lex::ReadFault;
use cyc_runs::INPUT_LIMIT;
use definition_equality::{are_same_commands, are_same_definitions};
use formula_reader::{Problem, read_problem};
use frames::questions::{QuestionNames, framed_text, question_names};
use frames::search::{FrameQuestion, Frames, candidates};
use heap_formula::{Disjuncts, Heap, Judgement, Pure, Spatial};
use heap_syntax::Version;
use model_file::Model;
use solver::{FoundProof, Solution, solve};
use std::alloc::Global;

/// The least effort, with which all candidates are tried first.
const LEAST_EFFORT: u32 = 1;

/// The most candidates that are tried again with the whole effort.
const MOST_AGAIN: usize = 3;

/// A problem that says what is left, its text, and a proof of its goal.
#[derive(Drop)]
pub struct FoundFrame {
    pub text: Vec<u8>,
    pub problem: Problem,
    pub proof: FoundProof,
}

fn begins_with_pure(whole: &[Pure], part: &[Pure]) -> bool
    ensures { IsTrue result → (rest : List PureAtom) × (whole.now ≡ part.now ++ rest) }
{
    if part.len() > whole.len() {
        return false;
    }
    &whole[..part.len()] == part
}

fn begins_with_spatial(whole: &[Spatial], part: &[Spatial]) -> bool
    ensures { IsTrue result → (rest : List SpatialAtom) × (whole.now ≡ part.now ++ rest) }
{
    if part.len() > whole.len() {
        return false;
    }
    &whole[..part.len()] == part
}

/// Whether a heap is what was asked for and more.
fn is_joined(asked: &Heap, whole: &Heap) -> bool
    ensures { IsTrue result → IsPartAndMore asked.now whole.now }
{
    if !begins_with_pure(whole.pure(), asked.pure()) {
        return false;
    }
    begins_with_spatial(whole.spatial(), asked.spatial())
}

fn are_joined(asked: &Heap, disjuncts: &[Heap]) -> bool
    ensures { IsTrue result → Each (IsPartAndMore asked.now) disjuncts.now }
{
    for whole in disjuncts {
        if !is_joined(asked, whole) {
            return false;
        }
    }
    true
}

fn are_framed(asked: &Disjuncts, disjuncts: &Disjuncts) -> bool
    ensures joined { IsTrue result → (b : SymbolicHeap) × (asked.now ≡ b ∷ []) × Each (IsPartAndMore b) disjuncts.now }
    ensures some { IsTrue result → 0 < length disjuncts.now }
{
    match asked.heaps() {
        [only] => are_joined(only, disjuncts.heaps()),
        _ => false,
    }
}

fn is_framed_goal(question: &Judgement, framed: &Judgement) -> bool
    ensures { IsTrue result → IsFramedGoal question.now framed.now }
{
    match (question, framed) {
        (Judgement::Entail(left, asked), Judgement::Entail(antecedent, disjuncts)) => {
            *antecedent == *left && are_framed(asked, disjuncts)
        }
        _ => false,
    }
}

fn are_same_versions(a: Version, b: Version) -> bool
    ensures { IsTrue result → b ≡ a }
{
    match (a, b) {
        (Version::One, Version::One) => true,
        (Version::Two, Version::Two) => true,
        (Version::Three, Version::Three) => true,
        _ => false,
    }
}

/// Whether the second problem is the first with a frame in its goal.
fn is_frame_of(problem: &Problem, framed: &Problem) -> bool
    ensures { IsTrue result → IsFrameOf problem.now framed.now }
{
    if !are_same_versions(problem.version, framed.version) {
        return false;
    }
    if !are_same_definitions(framed.defs.as_slice(), problem.defs.as_slice()) {
        return false;
    }
    if !are_same_commands(framed.program.lines(), problem.program.lines()) {
        return false;
    }
    is_framed_goal(&problem.goal, &framed.goal)
}

/// The text, where it spells a problem with a frame whose goal is proved with an effort.
fn proved_text(
    alloc: Global,
    problem: &Problem,
    text: Vec<u8>,
    effort: u32,
) -> Result<Option<FoundFrame>, OutOfMemory>
    ensures { IfOk result (IsSoughtFrame problem.now) }
{
    if text.len() > INPUT_LIMIT {
        return Ok(None);
    }
    let framed = match read_problem(alloc, &text) {
        Ok(framed) => framed,
        Err(ReadFault::OutOfMemory) => return Err(OutOfMemory),
        Err(_) => return Ok(None),
    };
    if !is_frame_of(problem, &framed) {
        return Ok(None);
    }
    match solve(alloc, &framed, effort)? {
        Solution::Proved(proof) => Ok(Some(FoundFrame {
            text,
            problem: framed,
            proof,
        })),
        _ => Ok(None),
    }
}

/// A question for a frame: its text, the problem that it speaks of, and the names in that.
#[derive(Clone, Copy)]
struct Question<'a, 'b> {
    input: &'a [u8],
    problem: &'a Problem,
    names: &'a QuestionNames<'b>,
}

/// The text with its last line ended, so that a proof may stand behind it also where it ends in a comment.
fn ended(mut text: Vec<u8>) -> Result<Vec<u8>, OutOfMemory>
    ensures { IfOk result (λ whole. (whole.items ≡ text.items) ⊎ (whole.items ≡ text.items ++ (10 ∷ []))) }
{
    if !matches!(text.last(), Some(b'\n')) {
        text.extend_from_slice(b"\n")?;
    }
    Ok(text)
}

/// The first of the candidates that is proved with an effort.
fn first_proved(
    alloc: Global,
    question: Question<'_, '_>,
    wanted: &Heap,
    candidates: &[Frames],
    effort: u32,
) -> Result<Option<FoundFrame>, OutOfMemory>
    ensures { IfOk result (IsSoughtFrame question.entry.problem.now) }
{
    let defs = &question.problem.defs;
    for candidate in candidates {
        let text = framed_text(
            alloc,
            question.input,
            question.names,
            defs,
            wanted,
            candidate,
        )?;
        let found = proved_text(alloc, question.problem, ended(text)?, effort)?;
        if found.is_some() {
            return Ok(found);
        }
    }
    Ok(None)
}

/// What is found of a question: what is left, a model that shows that nothing is, or nothing.
#[derive(Drop)]
pub enum Finding {
    Frame(FoundFrame),
    NoFrame(Model),
    Nothing,
}

/// Which of the universal variables have a prime, so that no frame can name them.
fn hidden_names(alloc: Global, names: &QuestionNames<'_>) -> Result<Vec<bool>, OutOfMemory> {
    let mut hidden = Vec::new(alloc);
    for name in &names.universals {
        hidden.push(name.primed)?;
    }
    Ok(hidden)
}

/// The first of a few candidates that is proved with the whole effort.
fn proved_again(
    alloc: Global,
    question: Question<'_, '_>,
    wanted: &Heap,
    candidates: &[Frames],
    effort: u32,
) -> Result<Finding, OutOfMemory>
    ensures { IfOk result (IsFinding question.entry.problem.now) }
{
    if effort <= LEAST_EFFORT {
        return Ok(Finding::Nothing);
    }
    let again = &candidates[..candidates.len().min(MOST_AGAIN)];
    match first_proved(alloc, question, wanted, again, effort)? {
        Some(found) => Ok(Finding::Frame(found)),
        None => Ok(Finding::Nothing),
    }
}

/// What is found for these candidates: all are tried a little, then a model is looked for, and then some candidates are
/// tried more.
fn finding_among(
    alloc: Global,
    question: Question<'_, '_>,
    wanted: &Heap,
    candidates: &[Frames],
    effort: u32,
) -> Result<Finding, OutOfMemory>
    ensures { IfOk result (IsFinding question.entry.problem.now) }
{
    if let Some(found) = first_proved(alloc, question, wanted, candidates, LEAST_EFFORT)? {
        return Ok(Finding::Frame(found));
    }
    match frameless_model(alloc, question.problem, effort)? {
        Some(model) => Ok(Finding::NoFrame(model)),
        None => proved_again(alloc, question, wanted, candidates, effort),
    }
}

/// What is found for an antecedent and what is asked for.
fn finding_for(
    alloc: Global,
    question: Question<'_, '_>,
    antecedent: &Heap,
    wanted: &Heap,
    effort: u32,
) -> Result<Finding, OutOfMemory>
    ensures { IfOk result (IsFinding question.entry.problem.now) }
{
    let hidden = hidden_names(alloc, question.names)?;
    let asked = FrameQuestion {
        defs: &question.problem.defs,
        antecedent,
        wanted,
        hidden: &hidden,
    };
    let found = candidates(alloc, asked)?;
    finding_among(alloc, question, wanted, &found, effort)
}

/// What is found of the question of an input, which speaks of a problem with this text; that nothing is found means
/// nothing.
pub fn finding_of(
    alloc: Global,
    input: &[u8],
    plain: &[u8],
    problem: &Problem,
    effort: u32,
) -> Result<Finding, OutOfMemory>
    requires { length plain.now < 2 ^ 32 - 1 }
    ensures { IfOk result (IsFinding problem.now) }
{
    let names = question_names(alloc, plain)?;
    let question = Question {
        input,
        problem,
        names: &names,
    };
    match &problem.goal {
        Judgement::Entail(antecedent, disjuncts) => match disjuncts.heaps() {
            [wanted] => finding_for(alloc, question, antecedent, wanted, effort),
            _ => Ok(Finding::Nothing),
        },
        Judgement::Term(_, _) => Ok(Finding::Nothing),
    }
}
