// The candidates for a frame.
use crate::search::guesses::{without_last_cell, without_path};
use crate::search::leaves::Leaf;
use crate::search::matches::Match;
use crate::search::matching::{Matched, match_in};
use crate::search::naming::Naming;
use crate::search::wishes::place_to_unfold;
use cyc_basics::memory::OutOfMemory;
use heap_formula::{Heap, Pure, Spatial, bound_of_heap, exists_in_heap};
use pred_defs::Defs;
use seek_shapes::Shapes;
use std::alloc::Global;

/// The most leaves that an antecedent is unfolded to.
const MOST_LEAVES: u32 = 40;

/// The most atoms of a leaf that are replaced by cases.
const MOST_DEPTH: u32 = 4;

/// The most disjuncts of a frame.
const MOST_FRAMES: usize = 4;

/// What is asked: whether an antecedent holds something and more. The variables that `hidden` marks cannot stand in a
/// frame.
#[derive(Clone, Copy)]
pub struct FrameQuestion<'a> {
    pub defs: &'a Defs,
    pub antecedent: &'a Heap,
    pub wanted: &'a Heap,
    pub hidden: &'a [bool],
}

/// A candidate: heaps of which one is left.
pub type Frames = Vec<Heap>;

/// A leaf in which all atoms that are asked for have partners.
#[derive(Drop)]
struct Closed {
    leaf: Leaf,
    matched: Match,
}

#[derive(Drop)]
struct Search<'a> {
    alloc: Global,
    asked: FrameQuestion<'a>,
    shapes: Shapes<'a>,
    closed: Vec<Closed>,
    open: Vec<Leaf>,
    guesses: Vec<Frames>,
}

impl Search<'_> {
    fn count(&self) -> usize {
        exists_in_heap(self.asked.wanted) as usize
    }

    /// Atoms of a leaf as a frame.
    fn push_guess(
        &mut self,
        leaf: &Leaf,
        matched: &Match,
        atoms: &[Spatial],
    ) -> Result<(), OutOfMemory> {
        let (alloc, hidden, count) = (self.alloc, self.asked.hidden, self.count());
        let mut naming = Naming::new(alloc, leaf, matched, hidden, count);
        if let Some(frame) = naming.frame(alloc, Vec::new(alloc), atoms)? {
            self.guesses.push(vec![in alloc; frame]?)?;
        }
        Ok(())
    }

    /// The frames that are guessed.
    fn guess(&mut self, leaf: &Leaf, matched: &Match) -> Result<(), OutOfMemory> {
        let alloc = self.alloc;
        if let Some(atoms) = without_path(alloc, &self.shapes, leaf, matched)? {
            self.push_guess(leaf, matched, &atoms)?;
        }
        for atoms in &without_last_cell(alloc, &self.shapes, matched)? {
            self.push_guess(leaf, matched, atoms)?;
        }
        Ok(())
    }

    /// Goes on from a leaf in which something has no partner; whether that may lead on.
    fn go_on(&mut self, leaf: Leaf, matched: &Match) -> Result<bool, OutOfMemory> {
        if leaf.depth == 0 {
            self.guess(&leaf, matched)?;
        }
        if leaf.depth >= MOST_DEPTH {
            return Ok(false);
        }
        match place_to_unfold(&self.shapes, &leaf, matched)? {
            Some(place) => {
                let mut leaves = leaf.unfolded(self.alloc, self.asked.defs, place)?;
                leaves.reverse();
                self.open.append(&mut leaves)?;
                Ok(true)
            }
            None => Ok(false),
        }
    }

    fn look_at(&mut self, leaf: Leaf) -> Result<bool, OutOfMemory> {
        let (alloc, defs) = (self.alloc, self.asked.defs);
        match match_in(alloc, defs, &self.shapes, &leaf, self.asked.wanted)? {
            Matched::Whole(matched) => {
                self.closed.push(Closed { leaf, matched })?;
                Ok(true)
            }
            Matched::Part(matched) => self.go_on(leaf, &matched),
        }
    }

    /// Whether each leaf is closed.
    fn close_all(&mut self) -> Result<bool, OutOfMemory> {
        for _ in 0..MOST_LEAVES {
            let Some(leaf) = self.open.pop() else {
                return Ok(true);
            };
            if !self.look_at(leaf)? {
                return Ok(false);
            }
        }
        Ok(false)
    }

    /// What is left of a leaf, with what its cases said or without.
    fn rest(&self, closed: &Closed, is_whole: bool) -> Result<Option<Heap>, OutOfMemory> {
        let (alloc, hidden) = (self.alloc, self.asked.hidden);
        let (leaf, matched) = (&closed.leaf, &closed.matched);
        let mut naming = Naming::new(alloc, leaf, matched, hidden, self.count());
        let pure = if is_whole {
            naming.said(alloc)?
        } else {
            Vec::new(alloc)
        };
        naming.frame(alloc, pure, &matched.left)
    }

    /// What is left of each leaf, as one candidate.
    fn all_rests(&self) -> Result<Frames, OutOfMemory> {
        let mut frames: Frames = Vec::new(self.alloc);
        for closed in &self.closed {
            if let Some(frame) = self.rest(closed, true)? {
                if !frames.contains(&frame) {
                    frames.push(frame)?;
                }
            }
        }
        Ok(frames)
    }

    /// What is left of any leaf, as a candidate for all.
    fn push_rests(&self, found: &mut Vec<Frames>) -> Result<(), OutOfMemory> {
        for closed in &self.closed {
            if let Some(frame) = self.rest(closed, false)? {
                let frames = vec![in self.alloc; frame]?;
                if !found.contains(&frames) {
                    found.push(frames)?;
                }
            }
        }
        Ok(())
    }

    fn candidates(self) -> Result<Vec<Frames>, OutOfMemory> {
        let mut found = Vec::new(self.alloc);
        let all = self.all_rests()?;
        if self.closed.len() > 1 && all.len() > 1 && all.len() <= MOST_FRAMES {
            found.push(all)?;
        }
        self.push_rests(&mut found)?;
        Ok(found)
    }
}

/// Candidates for frames, the strongest first.
pub fn candidates(alloc: Global, asked: FrameQuestion<'_>) -> Result<Vec<Frames>, OutOfMemory> {
    let variables = bound_of_heap(asked.antecedent).max(asked.hidden.len().min(65_535) as u32);
    let Some(first) = Leaf::first(alloc, asked.antecedent, variables)? else {
        return Ok(Vec::new(alloc));
    };
    let mut search = Search {
        alloc,
        asked,
        shapes: Shapes::new(alloc, asked.defs)?,
        closed: Vec::new(alloc),
        open: vec![in alloc; first]?,
        guesses: Vec::new(alloc),
    };
    if search.close_all()? {
        search.candidates()
    } else {
        Ok(search.guesses)
    }
}
