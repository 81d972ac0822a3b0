//! The start of age forests, and their steps.

ghost use Rattle.std.specs.Prelude.{◌≡◌, ◌≤◌, length};
ghost use Rattle.buchi_core.specs.Forest.{IsPositionSet, next_forest, event_of, start as first_forest};
ghost use Rattle.buchi_core.specs.Stepping.{forest_in};
ghost use Rattle.buchi_core.specs.View.{entries_of, forest_of};

use crate::age_forest::AgeForest;
use crate::entry::Entry;
use crate::event::Event;
use crate::grow::grow;
use crate::leads::{Moves, no_moves};
use crate::list::{append, empty, entries_in};
use crate::masks::{mask_of, set_moves};
use crate::settle::{event_at, find_losses, settle_all};
use crate::young::{MOST_YOUNG, Young, no_entries};
use arrayvec::ArrayVec;
use cyc_basics::limits::MOST_POSITIONS;

/// The forest that a search begins with at a node of these positions: one entry with all of them, none if there are
/// none.
pub fn start(positions: &[u8]) -> AgeForest
    requires { IsPositionSet positions.now }
    ensures { forest_of result ≡ first_forest positions.now }
{
    let mut forest = empty();
    if positions.is_empty() {
        return forest;
    }
    let set = mask_of(positions);
    append(&mut forest, Entry::new(None, set));
    forest
}

/// What steps are made in, one after the other, so that none makes room of its own: the table of an edge's pairs, the
/// entries before any is dropped, which of them have a full ancestor, and the forest after the step.
#[derive(Drop)]
pub struct Stepper {
    pub(crate) moves: Moves,
    pub(crate) young: Young,
    pub(crate) lost: ArrayVec<bool, MOST_YOUNG>,
    pub(crate) next: AgeForest,
}

impl Default for Stepper {
    fn default() -> Stepper {
        Stepper {
            moves: no_moves(),
            young: no_entries(),
            lost: ArrayVec::new(),
            next: empty(),
        }
    }
}

impl Stepper {
    /// Makes a step along an edge to a node, and gives its event: what `step` does from the forest of these entries.
    pub fn step(&mut self, forest: &[Entry], pairs: &[(u8, u8, bool)], positions: &[u8]) -> Event
        requires short { length forest.now ≤ MOST_POSITIONS }
        requires positions { IsPositionSet positions.now }
        ensures forest { forest_in self.new ≡ next_forest pairs.now positions.now (entries_of forest.now) }
        ensures event { result ≡ event_of pairs.now positions.now (entries_of forest.now) }
        ensures few { length (forest_in self.new) ≤ length positions.now }
    {
        let mask = mask_of(positions);
        set_moves(&mut self.moves, pairs);
        grow(&mut self.young, pairs, &self.moves, mask, forest);
        find_losses(&mut self.lost, &self.young);
        let entries = self.young.entries.as_slice();
        settle_all(&mut self.next, entries, self.lost.as_slice());
        event_at(&self.young, self.lost.as_slice(), forest.len() as u8)
    }

    /// The entries after the last step, oldest first.
    pub fn entries(&self) -> &[Entry]
        ensures { entries_of result.now ≡ forest_in self.now }
    {
        entries_in(&self.next)
    }
}

/// A step along an edge to a node: the forest after it, and its event.
///
/// `pairs` are the edge's: a position before the step, one after it, and whether a trace that takes the pair progresses.
/// `positions` are the new node's. Each set becomes its successors by all pairs; each old entry gets a youngest child
/// with the successors by the pairs that progress; an entry with all positions is appended. Then, from old to young,
/// each entry loses what an older sibling has and what its parent lacks; entries that are empty are dropped; and an
/// entry that is the union of its children turns green and loses its descendants.
pub fn step(forest: &AgeForest, pairs: &[(u8, u8, bool)], positions: &[u8]) -> (AgeForest, Event)
    requires { IsPositionSet positions.now }
    ensures forest { forest_of result.0 ≡ next_forest pairs.now positions.now (forest_of forest.now) }
    ensures event { result.1 ≡ event_of pairs.now positions.now (forest_of forest.now) }
    ensures few { length (forest_of result.0) ≤ length positions.now }
{
    let mut stepper = Stepper::default();
    let event = stepper.step(entries_in(forest), pairs, positions);
    (stepper.next, event)
}
