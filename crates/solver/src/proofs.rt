// The searches for a proof, and the check of what they find.
ghost use Rattle.std.specs.Prelude.{IfOk};
ghost use Rattle.solver.specs.Solutions.{IsSought};

use crate::budgets::Budget;
use crate::checking::checked;
use crate::drafts::file_nodes;
use crate::solution::{FoundProof, ProofSearch};
use cyc_basics::memory::OutOfMemory;
use formula_reader::Problem;
use heap_formula::Judgement;
use proof_search::{Proved, prove};
use seek_engine::{Aim, Draft, Setting, search};
use seek_programs::Programs;
use std::alloc::Global;

/// The greatest fuel at which an entailment is tried.
const FUEL: u32 = 9;

/// The most visits of a line on one way.
const VISITS: u32 = 3;

/// The greatest depth of the search by fixed moves.
const DEPTH: u32 = 16;

/// A draft in which every node is closed, and which search made it.
type FoundDraft = Option<(Draft, ProofSearch)>;

/// A proof by a goal stack; where there is none, `stuck` becomes the judgement of a program on which the search gave
/// up.
fn by_stack(
    setting: Setting<'_>,
    goal: &Judgement,
    aim: Aim,
    steps: u32,
    stuck: &mut Option<Judgement>,
) -> Result<FoundDraft, OutOfMemory> {
    let mut strategy = Programs::new(setting);
    let mut draft = Draft::new(setting.alloc, goal)?;
    let outcome = search(&setting, &mut strategy, &mut draft, aim, steps)?;
    if outcome.is_found {
        return Ok(Some((draft, ProofSearch::GoalStack)));
    }
    *stuck = draft.take_stuck();
    Ok(None)
}

fn by_lemmas(
    setting: Setting<'_>,
    goal: &Judgement,
    steps: u32,
) -> Result<FoundDraft, OutOfMemory> {
    match seek_lemmas::prove(setting, goal, steps)? {
        Some(draft) => Ok(Some((draft, ProofSearch::Lemmas))),
        None => Ok(None),
    }
}

fn by_contradiction(
    setting: Setting<'_>,
    goal: &Judgement,
    steps: u32,
) -> Result<FoundDraft, OutOfMemory> {
    match seek_refutations::refutation(setting, goal, steps)? {
        Some(draft) => Ok(Some((draft, ProofSearch::Contradiction))),
        None => Ok(None),
    }
}

/// A proof of few steps by a goal stack; else one by lemmas.
fn short_proof(
    setting: Setting<'_>,
    goal: &Judgement,
    budget: Budget,
    stuck: &mut Option<Judgement>,
) -> Result<FoundDraft, OutOfMemory> {
    let short = by_stack(setting, goal, Aim::Deepen(FUEL), budget.steps, stuck)?;
    if short.is_some() {
        return Ok(short);
    }
    by_lemmas(setting, goal, budget.lemma_steps)
}

/// A proof by lemmas; else one by a goal stack; else a contradiction on the left.
fn long_proof(
    setting: Setting<'_>,
    goal: &Judgement,
    budget: Budget,
    stuck: &mut Option<Judgement>,
) -> Result<FoundDraft, OutOfMemory> {
    let large = by_lemmas(setting, goal, budget.lemma_steps)?;
    if large.is_some() {
        return Ok(large);
    }
    let long = by_stack(setting, goal, Aim::Deepen(FUEL), budget.steps, stuck)?;
    if long.is_some() {
        return Ok(long);
    }
    by_contradiction(setting, goal, budget.contradiction_steps)
}

/// The steps of a search for the proof of a program: four times as many where it has an end, since then each of its
/// general states is whole.
fn steps_of(problem: &Problem, budget: Budget) -> u32 {
    if problem.program.has_ends() {
        return budget.steps.saturating_mul(4);
    }
    budget.steps
}

fn found_draft(
    alloc: Global,
    problem: &Problem,
    budget: Budget,
    stuck: &mut Option<Judgement>,
) -> Result<FoundDraft, OutOfMemory> {
    let setting = Setting {
        alloc,
        defs: &problem.defs,
        program: &problem.program,
    };
    let goal = &problem.goal;
    match goal {
        Judgement::Term(_, _) => {
            let steps = steps_of(problem, budget);
            by_stack(setting, goal, Aim::Rounds(VISITS), steps, stuck)
        }
        Judgement::Entail(_, _) => match budget.contradiction_steps {
            0 => short_proof(setting, goal, budget, stuck),
            _ => long_proof(setting, goal, budget, stuck),
        },
    }
}

/// A proof by a free search; where a program has none, `stuck` tells on what the search gave up.
pub fn free_proof(
    alloc: Global,
    problem: &Problem,
    budget: Budget,
    stuck: &mut Option<Judgement>,
) -> Result<Option<FoundProof>, OutOfMemory>
    ensures { IfOk result (IsSought problem.now) }
{
    let Some((draft, search)) = found_draft(alloc, problem, budget, stuck)? else {
        return Ok(None);
    };
    match checked(alloc, problem, file_nodes(alloc, &draft)?)? {
        Some(file) => Ok(Some(FoundProof { file, search })),
        None => Ok(None),
    }
}

/// A proof by the search with fixed moves.
pub fn fixed_proof(
    alloc: Global,
    problem: &Problem,
    budget: Budget,
) -> Result<Option<FoundProof>, OutOfMemory>
    ensures { IfOk result (IsSought problem.now) }
{
    if budget.derivations == 0 {
        return Ok(None);
    }
    match prove(alloc, problem, DEPTH, budget.derivations)? {
        Proved::Found(file) => Ok(Some(FoundProof {
            file,
            search: ProofSearch::FixedMoves,
        })),
        Proved::NotFound | Proved::TooManyDerivations | Proved::TooManyStates => Ok(None),
    }
}
