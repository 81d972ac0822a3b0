// How a judgement is tried.
use crate::purposes::{Purpose, is_plain, purpose_for};
use cyc_basics::memory::OutOfMemory;
use heap_formula::{Heap, Judgement, Pure, Term};
use seek_trees::{Effort, Question};
use std::alloc::Global;

/// The steps of the tactic for a lemma.
const TACTIC: u32 = 400;

/// The steps of a part as a goal of its own.
const PART: u32 = 3000;

/// The steps of the search with a goal stack, for a lemma and for a part.
const STACK: u32 = 1500;

const STACK_FOR_PART: u32 = 6000;

/// How deep a goal's Splits go at most.
const DEPTHS: [i32; 3] = [0, 1, 2];

/// The atoms that the tactic may unfold one in another.
const FUEL: u32 = 3;

/// One way to try a judgement: by moves for a purpose, or by the search with a goal stack; in so many steps.
#[derive(Drop)]
pub enum Trial {
    Moves(Purpose, u32),
    Stack(u32),
}

fn disjuncts(judgement: &Judgement) -> &[Heap] {
    match judgement {
        Judgement::Entail(_, right) => right.heaps(),
        Judgement::Term(_, _) => &[],
    }
}

fn is_contradiction(heaps: &[Heap]) -> bool {
    match heaps {
        [heap] => matches!(heap.pure(), [Pure::Neq(Term::Nil, Term::Nil)])
            && heap.spatial().is_empty(),
        _ => false,
    }
}

fn tactic(alloc: Global, judgement: &Judgement) -> Purpose {
    if is_contradiction(disjuncts(judgement)) {
        return Purpose::Contradict { is_ready: false };
    }
    Purpose::Grow {
        companions: Vec::new(alloc),
        fuel: FUEL,
        is_ready: false,
    }
}

fn push_for_part(trials: &mut Vec<Trial>, judgement: &Judgement) -> Result<(), OutOfMemory> {
    let is_single = !is_plain(disjuncts(judgement));
    for fuel in DEPTHS {
        if fuel == 0 || !is_single {
            trials.push(Trial::Moves(purpose_for(judgement, fuel), PART))?;
        }
    }
    Ok(())
}

fn stack(effort: Effort) -> u32 {
    if effort.is_part {
        STACK_FOR_PART
    } else {
        STACK
    }
}

/// The ways to try a lemma, the first one last.
pub fn lemma_trials(alloc: Global, question: &Question) -> Result<Vec<Trial>, OutOfMemory> {
    let judgement = &question.judgement;
    let mut trials = vec![in alloc; Trial::Moves(tactic(alloc, judgement), TACTIC)]?;
    if question.effort.is_part {
        push_for_part(&mut trials, judgement)?;
    }
    if question.effort.is_hard {
        trials.push(Trial::Stack(stack(question.effort)))?;
    }
    trials.reverse();
    Ok(trials)
}

/// The ways to try the main goal, the first one last.
pub fn goal_trials(alloc: Global, goal: &Judgement, most: u32) -> Result<Vec<Trial>, OutOfMemory> {
    let mut trials = Vec::new(alloc);
    for fuel in DEPTHS {
        trials.push(Trial::Moves(purpose_for(goal, fuel), most))?;
    }
    trials.reverse();
    Ok(trials)
}
