// Which cases are to be done, and which predicates they use.

use crate::turns::Turn;
use cyc_basics::memory::OutOfMemory;
use heap_formula::Spatial;
use std::alloc::Global;
use std::collections::VecDeque;

/// Cases that wait for their turn, each once, and for each predicate the cases that use it.
#[derive(Drop)]
pub struct Agenda {
    waiting: VecDeque<usize>,
    waits: Vec<bool>,
    users: Vec<Vec<usize>>,
}

impl Agenda {
    /// All cases, the last first; `preds` is how many predicates there are.
    pub fn new(alloc: Global, preds: usize, turns: &[Turn]) -> Result<Agenda, OutOfMemory> {
        let mut agenda = Agenda {
            waiting: VecDeque::new(alloc),
            waits: Vec::new(alloc),
            users: Vec::new(alloc),
        };
        for _pred in 0..preds {
            agenda.users.push(Vec::new(alloc))?;
        }
        agenda.fill(turns)?;
        Ok(agenda)
    }

    /// Each case waits, behind those that follow it; and whom it uses is noted.
    fn fill(&mut self, turns: &[Turn]) -> Result<(), OutOfMemory> {
        for (place, turn) in turns.iter().enumerate() {
            self.waiting.push_front(place)?;
            self.waits.push(true)?;
            note_case(&mut self.users, place, turn)?;
        }
        Ok(())
    }

    /// The case that has waited longest.
    pub fn next(&mut self) -> Option<usize> {
        let place = self.waiting.pop_front()?;
        if let Some(waits) = self.waits.get_mut(place) {
            *waits = false;
        }
        Some(place)
    }

    /// The cases that use this predicate wait from now on, if they do not yet.
    pub fn add_users(&mut self, pred: u16) -> Result<(), OutOfMemory> {
        let Some(users) = self.users.get(pred as usize) else {
            return Ok(());
        };
        for user in users {
            if let Some(waits) = self.waits.get_mut(*user) {
                if !*waits {
                    *waits = true;
                    self.waiting.push_back(*user)?;
                }
            }
        }
        Ok(())
    }
}

/// Notes that a case uses the predicates of its atoms, each once.
fn note_case(users: &mut Vec<Vec<usize>>, place: usize, turn: &Turn) -> Result<(), OutOfMemory> {
    for stage in &turn.stages {
        let Spatial::Pred(used, _) = stage.atom else {
            continue;
        };
        if let Some(list) = users.get_mut(used as usize) {
            if list.last() != Some(&place) {
                list.push(place)?;
            }
        }
    }
    Ok(())
}
