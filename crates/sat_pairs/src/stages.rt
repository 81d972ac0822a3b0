// The states after each atom of a case, which are kept from turn to turn.
ghost use Rattle.std.specs.Prelude.{◌≡◌, ◌≤◌, ◌+◌, ◌++◌, List, suc, length, Err, IfOk};
ghost use Rattle.heap_formula.specs.Words.{Each};
ghost use Rattle.pair_family.specs.BasePairs.{BasePair};
ghost use Rattle.pair_family.specs.Frames.{kept_terms, frames_of};
ghost use Rattle.pair_family.specs.Labels.{Extends, HasRoom};
ghost use Rattle.pair_family.specs.LargeCases.{HasMore, sizes};
ghost use Rattle.pair_family.specs.Reordering.{families_of};
ghost use Rattle.pair_family.specs.Tables.{IsDistinct};
ghost use Rattle.pair_family.specs.Within.{IsWithin};
ghost use Rattle.sat_pairs.specs.CaseStates.{PassesFrom};
ghost use Rattle.sat_pairs.specs.Numbers.{cell_pair_alone};
ghost use Rattle.sat_pairs.specs.Atoms.{lists_of};
ghost use Rattle.sat_pairs.specs.Stages.{AreFresh, AreStages, GivesAt, IsAlike, IsFresh, IsFull, IsTaken};
ghost use Rattle.sat_pairs.specs.Stages.{atoms_of, outcome};
ghost use Rattle.sat_pairs.specs.declared.stages.Stage.{Stage};

use crate::atoms::pairs_of_atom;
use crate::cases::places_for;
use crate::numbers::{kept_numbers, numbers_below, push_spoken};
use crate::tables::Table;
use cyc_basics::memory::OutOfMemory;
use heap_formula::Spatial;
use indexmap::IndexSet;
use pair_family::states::{AtomStep, Known, StatesFault, grow_states};
use std::alloc::Global;

/// An atom, how many of its base pairs were taken in, and the states that they gave; and what its step needs.
#[derive(Drop)]
pub struct Stage {
    pub atom: Spatial,
    pub numbers: Vec<u64>,
    pub places: Vec<usize>,
    pub kept: Vec<usize>,
    pub taken: usize,
    pub room: usize,
    pub states: IndexSet<Known>,
}

/// The stage of an atom that stands before the atoms `rest`, with no states; these may be `most` in size.
fn stage_of(
    alloc: Global,
    k: u32,
    atom: &Spatial,
    rest: &[Spatial],
    most: usize,
) -> Result<Stage, OutOfMemory>
    ensures { IfOk result (IsFresh most k atom.now rest.now) }
{
    let mut numbers = kept_numbers(alloc, k, rest)?;
    let kept = numbers_below(alloc, numbers.len())?;
    push_spoken(&mut numbers, atom)?;
    let places = places_for(alloc, &numbers, atom)?;
    Ok(Stage {
        atom: *atom,
        numbers,
        places,
        kept,
        taken: 0,
        room: most,
        states: IndexSet::new(alloc),
    })
}

/// Adds a stage for each of the atoms, with no states.
pub fn push_stages(
    alloc: Global,
    stages: &mut Vec<Stage>,
    k: u32,
    atoms: &[Spatial],
    most: usize,
) -> Result<(), OutOfMemory>
    ensures { IfOk result (λ _. (more : List Stage) × (stages.new.items ≡ stages.old.items ++ more)
        × AreFresh most k atoms.now more) }
{
    let Some((atom, rest)) = atoms.split_first() else {
        return Ok(());
    };
    let stage = stage_of(alloc, k, atom, rest, most)?;
    stages.push(stage)?;
    push_stages(alloc, stages, k, rest, most)
}

impl Stage {
    /// Takes in the base pairs that have come, with the states before it, of which the first `done` were taken in.
    fn take_in(
        &mut self,
        alloc: Global,
        before: &[Known],
        done: usize,
        pairs: &[Known],
    ) -> Result<(), StatesFault>
        requires taken { IsTaken pairs.now before.now done self.old }
        requires done { done ≤ length before.now }
        requires distinct { IsDistinct self.old.states.keys }
        ensures same { IfOk result (λ _. IsAlike self.old self.new) }
        ensures extends { IfOk result (λ _. Extends self.old.states.keys self.new.states.keys) }
        ensures taken { IfOk result (λ _. IsTaken pairs.now before.now (length before.now) self.new) }
        ensures full { IfOk result (λ _. self.new.taken ≡ length pairs.now) }
        ensures room { IfOk result (λ _. HasRoom (self.old.room + sizes self.old.states.keys)
            self.new.states.keys self.new.room) }
        ensures many { result ≡ Err StatesFault.TooManyStates
            → HasMore (self.old.room + sizes self.old.states.keys) (GivesAt self.old before.now pairs.now) }
    {
        let step = AtomStep {
            numbers: &self.numbers,
            places: &self.places,
            kept: &self.kept,
        };
        let (old, new) = before.split_at(done);
        let come = &pairs[self.taken..];
        let room = grow_states(alloc, &step, &mut self.states, self.room, old, come)?;
        let left = grow_states(alloc, &step, &mut self.states, room, new, pairs)?;
        self.room = left;
        self.taken = pairs.len();
        Ok(())
    }
}

/// Takes in the base pairs that have come, atom by atom, and the states before them, of which the first `done` were
/// taken in.
pub fn advance(
    alloc: Global,
    table: &Table,
    cell: &[Known],
    _k: u32,
    before: &[Known],
    done: usize,
    stages: &mut [Stage],
    _most: usize,
) -> Result<(), StatesFault>
    requires cell { cell.now ≡ cell_pair_alone }
    requires within { Each (IsWithin (suc (length (kept_terms _k (atoms_of stages.old))))) before.now }
    requires done { done ≤ length before.now }
    requires stages { AreStages _most table.now cell.now _k before.now done stages.old }
    ensures same { IfOk result (λ _. atoms_of stages.new ≡ atoms_of stages.old) }
    ensures stages { IfOk result (λ _. AreStages _most table.now cell.now _k before.now (length before.now)
        stages.new) }
    ensures full { IfOk result (λ _. IsFull table.now cell.now stages.new) }
    ensures longer { IfOk result (λ _. (old : List BasePair) → Extends old before.now
        → Extends (outcome old stages.old) (outcome before.now stages.new)) }
    ensures many { result ≡ Err StatesFault.TooManyStates → PassesFrom _most
        (families_of (lists_of table.now cell.now (atoms_of stages.old)))
        (frames_of _k (atoms_of stages.old)) before.now (atoms_of stages.old) }
{
    let Some((stage, rest)) = stages.split_first_mut() else {
        return Ok(());
    };
    let pairs = pairs_of_atom(table, cell, &stage.atom);
    let old = stage.states.len();
    stage.take_in(alloc, before, done, pairs)?;
    advance(
        alloc,
        table,
        cell,
        _k,
        stage.states.as_slice(),
        old,
        rest,
        _most,
    )
}
