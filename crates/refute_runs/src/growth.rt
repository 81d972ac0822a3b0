// Runs that come back to a state like one before, with more.
use crate::choosing::Addresses;
use crate::exploring::Exploration;
use crate::faulty_runs::{Finish, Tail};
use crate::pairing::pairs_between;
use cyc_basics::memory::OutOfMemory;
use general_models::runs::{Ending, Growth, Renaming, ValuePair};
use goto_lang::{Config, Program};
use heap_formula::Command;
use pred_defs::Defs;
use std::alloc::Global;

/// How many steps back a state is sought that another is like.
const MOST_BACK: u32 = 100;

fn takes_cells(program: &Program) -> bool {
    for command in program.lines() {
        if let Command::New(_, _) = command {
            return true;
        }
    }
    false
}

/// The run to a state, which is like the one with this depth.
fn tail(
    exploration: &Exploration<'_>,
    number: usize,
    first: u32,
    again: u32,
    pairs: Vec<ValuePair>,
) -> Result<Tail, OutOfMemory> {
    Ok(Tail {
        picks: exploration.picks_to(number)?,
        finish: Finish::Refutes(Ending::Grow(Growth {
            first,
            again,
            renaming: Renaming::from_vec(pairs),
        })),
    })
}

/// The run to a state, if that is like one on the way to it.
fn growth_at(
    alloc: Global,
    exploration: &Exploration<'_>,
    number: usize,
) -> Result<Option<Tail>, OutOfMemory> {
    let Some(last) = exploration.visits.get(number) else {
        return Ok(None);
    };
    let mut at = last.from;
    for _ in 0..MOST_BACK {
        let Some(visit) = exploration.visits.get(at) else {
            break;
        };
        if let Some(pairs) = pairs_between(alloc, &visit.config, &last.config)? {
            return Ok(Some(tail(exploration, number, visit.depth, last.depth, pairs)?));
        }
        if visit.depth == 0 {
            break;
        }
        at = visit.from;
    }
    Ok(None)
}

/// A run that comes back with more, of at most so many states, whose new cells are all fresh and of nil.
pub fn growing_run(
    alloc: Global,
    defs: &Defs,
    program: &Program,
    first: Config,
    most: usize,
) -> Result<Option<Tail>, OutOfMemory> {
    if !takes_cells(program) {
        return Ok(None);
    }
    let mut exploration = Exploration::new(alloc, defs, program, first, Addresses::Above, 0)?;
    let failure = exploration.failure(most)?;
    if failure.is_some() {
        return Ok(failure);
    }
    for number in 1..exploration.visits.len() {
        let tail = growth_at(alloc, &exploration, number)?;
        if tail.is_some() {
            return Ok(tail);
        }
    }
    Ok(None)
}
