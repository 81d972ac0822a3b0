// Steps of a run: Exec, or the Unfold that may lay bare its cell.
use crate::forced::is_predicate;
use crate::heads::command_of;
use cyc_basics::memory::OutOfMemory;
use heap_formula::{Command, Heap, Judgement, Rule, Spatial, Term};
use rule_table::equated;
use seek_engine::{Aim, Move, Setting, arguments, one_rule};
use std::alloc::Global;

/// The address of the cell that a command needs.
fn wanted_address(command: Option<&Command>) -> Option<Term> {
    match command {
        Some(Command::Free(term) | Command::Load(_, term, _) | Command::Store(term, _, _)) => {
            Some(*term)
        }
        _ => None,
    }
}

/// The first place among an atom's arguments at which the term stands, up to the state's equations.
fn place_in(state: &Heap, atom: &Spatial, term: Term) -> Option<u32> {
    let mut place: u32 = 0;
    for other in arguments(atom) {
        if equated(state.pure(), *other, term) {
            return Some(place);
        }
        place = place.saturating_add(1);
    }
    None
}

/// Adds a rule, and an aim at each of its premises.
pub fn push_rule(
    moves: &mut Vec<Move>,
    alloc: Global,
    rule: Rule,
    aim: Aim,
) -> Result<(), OutOfMemory> {
    moves.push(one_rule(alloc, rule, aim)?)?;
    Ok(())
}

/// Adds Unfold of each predicate atom that has the term, those first that have it first.
fn push_unfolds(
    moves: &mut Vec<Move>,
    alloc: Global,
    state: &Heap,
    term: Term,
    aim: Aim,
) -> Result<(), OutOfMemory> {
    for place in 0..8 {
        for (k, atom) in state.spatial().iter().enumerate() {
            if is_predicate(atom) && place_in(state, atom, term) == Some(place) {
                push_rule(moves, alloc, Rule::Unfold(k as u32), aim)?;
            }
        }
    }
    Ok(())
}

/// Adds Exec, if it goes; else the Unfolds of atoms that have the address of the cell that is missing.
pub fn push_steps(
    moves: &mut Vec<Move>,
    setting: &Setting<'_>,
    judgement: &Judgement,
    line: u32,
    state: &Heap,
    aim: Aim,
) -> Result<(), OutOfMemory> {
    if setting.is_applicable(judgement, &Rule::Exec)? {
        return push_rule(moves, setting.alloc, Rule::Exec, aim);
    }
    match wanted_address(command_of(setting.program, line)) {
        Some(term) => push_unfolds(moves, setting.alloc, state, term, aim),
        None => Ok(()),
    }
}
