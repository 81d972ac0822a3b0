// More general states at the head of a loop.
use crate::commons::Commons;
use crate::folds::{Fitting, cut_rule, heap_of};
use crate::remainders::General;
use crate::state_folds::{StateFold, push_state_folds};
use crate::witnesses::push_witnesses;
use cyc_basics::memory::OutOfMemory;
use heap_formula::{Heap, Rule};
use seek_engine::{Aim, Entailments, Move, Step};
use std::alloc::Global;

/// How many states are tried.
const MOST_GENERAL_STATES: usize = 10;

/// How many sets of folds are looked at.
const MOST_SETS: usize = 400;

fn is_disjoint(x: &[u32], y: &[u32]) -> bool {
    for place in x {
        if y.contains(place) {
            return false;
        }
    }
    true
}

fn are_disjoint(x: &StateFold, y: &StateFold) -> bool {
    is_disjoint(x.of_first.as_slice(), y.of_first.as_slice())
        && is_disjoint(x.of_second.as_slice(), y.of_second.as_slice())
}

/// Whether one of the changes is the same as another.
fn has_same(all: &[General], general: &General) -> bool {
    for other in all {
        if other.cut == general.cut
            && other.pure == general.pure
            && other.by == general.by
            && other.weakened == general.weakened
            && other.dropped == general.dropped
        {
            return true;
        }
    }
    false
}

/// Adds the candidate with these folds, unless it is of no use or is there already.
fn push_general(
    all: &mut Vec<General>,
    commons: &Commons<'_>,
    folds: &[&StateFold],
) -> Result<(), OutOfMemory> {
    if all.len() >= MOST_SETS {
        return Ok(());
    }
    let mut general = General::none(commons.alloc);
    let filled = general.fill(commons, folds);
    if filled.is_err() || !general.is_useful(commons) || has_same(all, &general) {
        drop(general);
        return filled;
    }
    all.push(general)?;
    Ok(())
}

/// Candidates with no fold, one, or two that are disjoint.
fn push_generals(
    all: &mut Vec<General>,
    commons: &Commons<'_>,
    folds: &[StateFold],
) -> Result<(), OutOfMemory> {
    push_general(all, commons, &[])?;
    for fold in folds {
        push_general(all, commons, &[fold])?;
    }
    for (i, fold) in folds.iter().enumerate() {
        for (k, other) in folds.iter().enumerate() {
            if k < i && are_disjoint(other, fold) {
                push_general(all, commons, &[other, fold])?;
            }
        }
    }
    Ok(())
}

/// Adds the rules that lead to the more general state: a Cut, where something comes in, and what leaves out atoms.
fn push_rules(alloc: Global, rules: &mut Vec<Rule>, general: &General) -> Result<(), OutOfMemory> {
    if !general.pure.is_empty() || !general.by.is_empty() {
        let formula = heap_of(alloc, &general.pure, &general.by)?;
        rules.push(cut_rule(alloc, &general.cut, formula)?)?;
    }
    for place in &general.dropped {
        rules.push(Rule::Drop(*place))?;
    }
    for place in &general.weakened {
        rules.push(Rule::Weaken(*place))?;
    }
    Ok(())
}

/// Adds the move to the more general state.
fn push_move(
    alloc: Global,
    moves: &mut Vec<Move>,
    general: &General,
    then: Aim,
) -> Result<(), OutOfMemory> {
    let mut rules = Vec::new(alloc);
    push_rules(alloc, &mut rules, general)?;
    moves.push(Move::Step(Step {
        rules,
        side: Some(Aim::Aside(4)),
        aim: then,
    }))?;
    Ok(())
}

/// Adds the candidates that the state at a head and a later one there lead to.
fn push_later(
    all: &mut Vec<General>,
    entailments: &Entailments<'_>,
    fitting: &mut Fitting,
    state: &Heap,
    later: &Heap,
    variables: u16,
) -> Result<(), OutOfMemory> {
    let alloc = entailments.setting.alloc;
    let is_whole = entailments.setting.program.has_ends();
    let commons = Commons::new(alloc, state, later, variables, is_whole)?;
    let mut folds = Vec::new(alloc);
    let mut ran = push_state_folds(&mut folds, entailments, fitting, &commons);
    if ran.is_ok() {
        ran = push_generals(all, &commons, &folds);
    }
    drop(folds);
    drop(commons);
    ran
}

/// Adds the candidates at a head.
fn push_all(
    all: &mut Vec<General>,
    entailments: &Entailments<'_>,
    fitting: &mut Fitting,
    head: u32,
    state: &Heap,
    variables: u16,
) -> Result<(), OutOfMemory> {
    let mut states = Vec::new(entailments.setting.alloc);
    push_witnesses(&mut states, &entailments.setting, head, state, variables)?;
    for later in &states {
        push_later(all, entailments, fitting, state, later, variables)?;
    }
    Ok(())
}

/// Adds the moves to more general states at a head, the strongest states first.
pub fn push_general_moves(
    moves: &mut Vec<Move>,
    entailments: &Entailments<'_>,
    fitting: &mut Fitting,
    head: u32,
    state: &Heap,
    variables: u16,
    then: Aim,
) -> Result<(), OutOfMemory> {
    let alloc = entailments.setting.alloc;
    let mut all = Vec::new(alloc);
    push_all(&mut all, entailments, fitting, head, state, variables)?;
    all.sort_by_key(|general| general.score)?;
    all.truncate(MOST_GENERAL_STATES);
    for general in &all {
        push_move(alloc, moves, general, then)?;
    }
    Ok(())
}
