// Cases, each with what its turns have found.
ghost use Rattle.std.specs.Prelude.{ℕ, ◌≡◌, ◌↔◌, ◌≤◌, ◌<◌, length, Err, IfOk, IsTrue};
ghost use Rattle.heap_formula.specs.Meaning.{cases_of};
ghost use Rattle.heap_formula.specs.Words.{Each};
ghost use Rattle.pair_family.specs.BasePairs.{BasePair};
ghost use Rattle.pair_family.specs.Family.{CaseGives, arity_of};
ghost use Rattle.pair_family.specs.LargeCases.{IsLarge, sizes};
ghost use Rattle.pair_family.specs.Tables.{in_table};
ghost use Rattle.cyc_basics.specs.Words.{IsMember};
ghost use Rattle.sat_pairs.specs.Numbers.{cell_pair_alone};
ghost use Rattle.sat_pairs.specs.Atoms.{HasSome};
ghost use Rattle.sat_pairs.specs.Stages.{atoms_of, outcome};
ghost use Rattle.sat_pairs.specs.Turns.{HasTurns, IsFirst, IsNewTurn, IsTurn, case_at, found_by, heap_of, width_of};

use crate::atoms::pairs_of_atom;
use crate::cases::start;
use crate::orders::in_join_order;
use crate::stages::{Stage, advance, push_stages};
use crate::tables::Table;
use cyc_basics::memory::OutOfMemory;
use heap_formula::{Heap, Pure, Spatial};
use pair_family::states::{Known, StatesFault};
use pred_defs::Defs;
use std::alloc::Global;

/// A case of a predicate, by its place among the predicate's cases: what its pure atoms say, unless they exclude one
/// another, and whether that was taken in; the stages of its atoms, in the order of a join; and how many of the base
/// pairs that were found are in the table.
#[derive(Drop)]
pub struct Turn {
    pub pred: u16,
    pub place: usize,
    pub first: Vec<Known>,
    pub begun: usize,
    pub stages: Vec<Stage>,
    pub put: usize,
}

/// What the pure atoms say of the terms that the atoms speak of and of the parameters; nothing where they exclude one
/// another.
fn first_of(
    alloc: Global,
    k: u32,
    atoms: &[Spatial],
    pure: &[Pure],
) -> Result<Vec<Known>, OutOfMemory>
    ensures { IfOk result (λ v. IsFirst k atoms.now pure.now v.items) }
{
    let mut first = Vec::new(alloc);
    if let Some(known) = start(alloc, k, atoms, pure)? {
        first.push(known)?;
    }
    Ok(first)
}

/// A case that had no turn; `k` is how many parameters its predicate has.
fn turn_of(
    alloc: Global,
    _defs: &Defs,
    pred: u16,
    place: usize,
    k: u32,
    case: &Heap,
    most: usize,
) -> Result<Turn, OutOfMemory>
    requires pred { pred < length _defs.now.list }
    requires place { place < length (cases_of _defs.now.list pred) }
    requires arity { k ≡ arity_of _defs.now.list pred }
    requires case { case.now ≡ case_at _defs.now.list pred place }
    ensures new { IfOk result (IsNewTurn _defs.now.list most) }
    ensures pred { IfOk result (λ t. t.pred ≡ pred) }
    ensures place { IfOk result (λ t. t.place ≡ place) }
{
    let ordered = in_join_order(alloc, k, case.spatial())?;
    let first = first_of(alloc, k, &ordered, case.pure())?;
    let mut stages = Vec::new(alloc);
    push_stages(alloc, &mut stages, k, &ordered, most)?;
    Ok(Turn {
        pred,
        place,
        first,
        begun: 0,
        stages,
        put: 0,
    })
}

/// How many parameters a predicate has.
pub fn arity_at(defs: &Defs, pred: u16) -> u32
    requires { pred < length defs.now.list }
    ensures { result ≡ arity_of defs.now.list pred }
{
    let all = defs.as_slice();
    all[pred as usize].arity
}

/// Adds the cases of a predicate.
fn push_turns(
    alloc: Global,
    turns: &mut Vec<Turn>,
    defs: &Defs,
    pred: u16,
    most: usize,
) -> Result<(), OutOfMemory>
    requires pred { pred < length defs.now.list }
    requires new { Each (IsNewTurn defs.now.list most) turns.old.items }
    ensures new { IfOk result (λ _. Each (IsNewTurn defs.now.list most) turns.new.items) }
    ensures had { IfOk result (λ _. (p : ℕ) → HasTurns defs.now.list p turns.old.items
        → HasTurns defs.now.list p turns.new.items) }
    ensures has { IfOk result (λ _. HasTurns defs.now.list pred turns.new.items) }
{
    let k = arity_at(defs, pred);
    let cases = defs.cases(pred);
    for (place, case) in cases.iter().enumerate() {
        let turn = turn_of(alloc, defs, pred, place, k, case, most)?;
        turns.push(turn)?;
    }
    Ok(())
}

/// The cases of all predicates, none of which had a turn. The states after an atom may be `most` in size.
pub fn turns_of(alloc: Global, defs: &Defs, most: usize) -> Result<Vec<Turn>, OutOfMemory>
    ensures new { IfOk result (λ v. Each (IsNewTurn defs.now.list most) v.items) }
    ensures all { IfOk result (λ v. (p : ℕ) → p < length defs.now.list → HasTurns defs.now.list p v.items) }
{
    let mut turns = Vec::new(alloc);
    for pred in 0..defs.as_slice().len() {
        push_turns(alloc, &mut turns, defs, pred as u16, most)?;
    }
    Ok(turns)
}

/// Whether each atom has some base pair.
pub fn have_pairs(table: &Table, cell: &[Known], stages: &[Stage]) -> bool
    ensures { IsTrue result ↔ HasSome table.now cell.now (atoms_of stages.now) }
{
    for stage in stages {
        if pairs_of_atom(table, cell, &stage.atom).is_empty() {
            return false;
        }
    }
    true
}

/// Whether base pairs are no more than `most` in size.
fn are_within(states: &[Known], most: usize) -> bool
    ensures { IsTrue result ↔ (sizes states.now ≤ most) }
{
    let Some((first, rest)) = states.split_first() else {
        return true;
    };
    match first.room_after(most) {
        None => false,
        Some(left) => are_within(rest, left),
    }
}

/// The states after the last stage; the first ones, where there is no stage.
fn last_states<'a>(first: &'a [Known], stages: &'a [Stage]) -> &'a [Known]
    ensures { result.now ≡ outcome first.now stages.now }
{
    match stages.split_first() {
        None => first,
        Some((stage, rest)) => last_states(stage.states.as_slice(), rest),
    }
}

impl Turn {
    /// Takes in the base pairs that have come since the last turn.
    pub fn take_in(
        &mut self,
        alloc: Global,
        _defs: &Defs,
        table: &Table,
        cell: &[Known],
        k: u32,
        most: usize,
    ) -> Result<(), StatesFault>
        requires turn { IsTurn _defs.now.list most table.now cell.now self.old }
        requires arity { k ≡ arity_of _defs.now.list self.old.pred }
        requires cell { cell.now ≡ cell_pair_alone }
        requires some { HasSome table.now cell.now (atoms_of self.old.stages.items) }
        ensures same { IfOk result (λ _. (self.new.pred ≡ self.old.pred) × (self.new.place ≡ self.old.place)) }
        ensures turn { IfOk result (λ _. IsTurn _defs.now.list most table.now cell.now self.new) }
        ensures found { IfOk result (λ _. (b : BasePair) → IsMember b (found_by self.new)
            ↔ CaseGives (in_table table.now) k b (heap_of _defs.now.list self.old)) }
        ensures small { IfOk result (λ _. ¬ IsLarge most (in_table table.now) k (heap_of _defs.now.list self.old)) }
        ensures large { result ≡ Err StatesFault.TooManyStates
            → IsLarge most (in_table table.now) k (heap_of _defs.now.list self.old) }
    {
        if !are_within(&self.first, most) {
            return Err(StatesFault::TooManyStates);
        }
        advance(
            alloc,
            table,
            cell,
            k,
            &self.first,
            self.begun,
            &mut self.stages,
            most,
        )?;
        self.begun = self.first.len();
        Ok(())
    }

    /// The base pairs that were found.
    pub fn found(&self) -> &[Known]
        ensures { result.now ≡ found_by self.now }
    {
        last_states(&self.first, &self.stages)
    }
}
