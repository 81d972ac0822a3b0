// Runs that come back to a state.
use crate::exploring::{Exploration, MOST_COUNT};
use crate::faulty_runs::{Finish, Tail, made_picks};
use cyc_basics::memory::OutOfMemory;
use general_models::runs::{Ending, Pick};
use std::alloc::Global;

/// Whether a run may go on for ever from each state, as far as is known.
#[derive(Drop)]
struct Live<'a> {
    exploration: &'a Exploration<'a>,
    is_live: Vec<bool>,
}

/// Where a run goes on from a state, and with which pick.
#[derive(Drop)]
struct Going {
    target: usize,
    pick: Option<Pick>,
}

impl Live<'_> {
    fn lives(&self, number: usize) -> bool {
        match self.is_live.get(number) {
            Some(lives) => *lives,
            None => false,
        }
    }

    /// The first step to a state that lives.
    fn going(&self, number: usize) -> Result<Option<Going>, OutOfMemory> {
        let Some(visit) = self.exploration.visits.get(number) else {
            return Ok(None);
        };
        for step in &visit.steps {
            if self.lives(step.target) {
                return Ok(Some(Going {
                    target: step.target,
                    pick: step.pick.clone()?,
                }));
            }
        }
        Ok(None)
    }

    fn goes_on(&self, number: usize) -> bool {
        let Some(visit) = self.exploration.visits.get(number) else {
            return false;
        };
        for step in &visit.steps {
            if self.lives(step.target) {
                return true;
            }
        }
        false
    }

    /// The states that lead to none that lives do not live, from the last to the first; whether some did.
    fn trim(&mut self) -> bool {
        let mut is_changed = false;
        for number in (0..self.is_live.len()).rev() {
            if self.lives(number) && !self.goes_on(number) {
                if let Some(lives) = self.is_live.get_mut(number) {
                    *lives = false;
                }
                is_changed = true;
            }
        }
        is_changed
    }

    fn trim_all(&mut self) {
        for _ in 0..=self.is_live.len() {
            if !self.trim() {
                break;
            }
        }
    }

    /// The first state that lives.
    fn first(&self) -> Option<usize> {
        for number in 0..self.is_live.len() {
            if self.lives(number) {
                return Some(number);
            }
        }
        None
    }
}

fn place_of(numbers: &[usize], number: usize) -> Option<usize> {
    for (place, other) in numbers.iter().enumerate() {
        if *other == number {
            return Some(place);
        }
    }
    None
}

/// The run to the first state that lives and on until a state comes back.
fn tail(alloc: Global, live: &Live<'_>, first: usize) -> Result<Option<Tail>, OutOfMemory> {
    let Some(visit) = live.exploration.visits.get(first) else {
        return Ok(None);
    };
    let mut numbers = vec![in alloc; first]?;
    let mut made: Vec<Option<Pick>> = Vec::new(alloc);
    let mut at = first;
    for _ in 0..live.is_live.len() {
        let Some(going) = live.going(at)? else {
            return Ok(None);
        };
        made.push(going.pick)?;
        at = going.target;
        if let Some(place) = place_of(&numbers, at) {
            let mut picks = live.exploration.picks_to(first)?;
            picks.append(&mut made_picks(alloc, &made)?)?;
            let depth = visit.depth;
            return Ok(Some(Tail {
                picks,
                finish: Finish::Refutes(Ending::Repeat(
                    depth.saturating_add(place.min(MOST_COUNT) as u32),
                    depth.saturating_add(made.len().min(MOST_COUNT) as u32),
                )),
            }));
        }
        numbers.push(at)?;
    }
    Ok(None)
}

/// A run that comes back to a state where it was, among the steps that were explored.
pub fn repeat(alloc: Global, exploration: &Exploration<'_>) -> Result<Option<Tail>, OutOfMemory> {
    let mut live = Live {
        exploration,
        is_live: vec![in alloc; true; exploration.visits.len()]?,
    };
    live.trim_all();
    match live.first() {
        Some(first) => tail(alloc, &live, first),
        None => Ok(None),
    }
}
