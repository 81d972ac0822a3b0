// Sets of states, each member once, and no more than a number allows.
ghost use Rattle.std.specs.Prelude.{◌≡◌, ◌↔◌, ◌+◌, ◌≤◌, ◌⊎◌, [], Err, IfOk};
ghost use Rattle.cyc_basics.specs.Words.{IsMember};
ghost use Rattle.pair_family.specs.BasePairs.{BasePair};
ghost use Rattle.pair_family.specs.LargeCases.{sizes, HasMore};
ghost use Rattle.pair_family.specs.Tables.{IsDistinct};
ghost use Rattle.pair_family.specs.Labels.{Extends, Gives, Grows, HasRoom, IsAdded, GivesSome, GivesFrom};

use crate::states::combining::{Lists, combine_in};
use crate::states::known::Known;
use cyc_basics::memory::OutOfMemory;
use indexmap::IndexSet;
use std::alloc::{AllocError, Global};

/// Why there are no states: in size they are more than asked for, or out of memory.
#[derive(Clone, Copy, PartialEq, Eq, Debug)]
pub enum StatesFault {
    TooManyStates,
    OutOfMemory,
}

impl From<AllocError> for StatesFault {
    ghost use Rattle.pair_family.specs.declared.states.states.StatesFault.TheVariants.{OutOfMemory as memory_wanted};
    ghost use Rattle.std.specs.Prelude.{◌≡◌};

    ghost from_gives = { λ _ e. e ≡ memory_wanted };

    fn from(_error: AllocError) -> StatesFault {
        StatesFault::OutOfMemory
    }
}

impl From<OutOfMemory> for StatesFault {
    ghost use Rattle.pair_family.specs.declared.states.states.StatesFault.TheVariants.{OutOfMemory as memory_wanted};
    ghost use Rattle.std.specs.Prelude.{◌≡◌};

    ghost from_gives = { λ _ e. e ≡ memory_wanted };

    fn from(_error: OutOfMemory) -> StatesFault {
        StatesFault::OutOfMemory
    }
}

/// One atom's step from states to states: the numbers of the terms that stand before it, the places of nil and of those
/// that the atom's base pair speaks of, and the places that are kept.
#[derive(Clone, Copy)]
pub struct AtomStep<'a> {
    pub numbers: &'a [u64],
    pub places: &'a [usize],
    pub kept: &'a [usize],
}

/// Adds a base pair, unless it is there; and says whether it is new.
pub fn add(set: &mut IndexSet<Known>, known: Known) -> Result<bool, AllocError>
    ensures { IfOk result (λ b. IsAdded set.old.keys set.new.keys known b) }
{
    let (_, is_new) = set.insert_full(known)?;
    Ok(is_new)
}

/// Adds a base pair, unless it is there. The room that is left for base pairs is given, and comes back.
fn grow(set: &mut IndexSet<Known>, room: usize, known: Known) -> Result<usize, StatesFault>
    requires { IsDistinct set.old.keys }
    ensures room { IfOk result (HasRoom (room + sizes set.old.keys) set.new.keys) }
    ensures extends { IfOk result (λ _. Extends set.old.keys set.new.keys) }
    ensures grown { IfOk result (λ _. Grows set.old.keys set.new.keys (λ d. d ≡ known)) }
    ensures many { result ≡ Err StatesFault.TooManyStates
        → HasMore (room + sizes set.old.keys) (λ d. IsMember d set.old.keys ⊎ (d ≡ known)) }
{
    let after = known.room_after(room);
    let is_new = add(set, known)?;
    if !is_new {
        return Ok(room);
    }
    match after {
        None => Err(StatesFault::TooManyStates),
        Some(left) => Ok(left),
    }
}

/// Adds what one more base pair gives.
#[tactic(auto, using(crate::proofs::Growing::extends_self))]
fn grow_by(
    alloc: Global,
    lists: &mut Lists,
    set: &mut IndexSet<Known>,
    room: usize,
    step: &AtomStep<'_>,
    state: &Known,
    pair: &Known,
) -> Result<usize, StatesFault>
    requires { IsDistinct set.old.keys }
    ensures room { IfOk result (HasRoom (room + sizes set.old.keys) set.new.keys) }
    ensures extends { IfOk result (λ _. Extends set.old.keys set.new.keys) }
    ensures grown { IfOk result (λ _. Grows set.old.keys set.new.keys
        (λ d. Gives step.now.numbers.now state.now step.now.places.now step.now.kept.now d pair.now)) }
    ensures many { result ≡ Err StatesFault.TooManyStates → HasMore (room + sizes set.old.keys)
        (λ d. IsMember d set.old.keys
        ⊎ Gives step.now.numbers.now state.now step.now.places.now step.now.kept.now d pair.now) }
{
    match combine_in(
        alloc,
        lists,
        step.numbers,
        state,
        step.places,
        pair,
        step.kept,
    )? {
        None => Ok(room),
        Some(known) => grow(set, room, known),
    }
}

/// Adds what each of the base pairs gives with a state.
#[tactic(auto, using(crate::proofs::Growing::extends_self))]
fn grow_by_each(
    alloc: Global,
    lists: &mut Lists,
    set: &mut IndexSet<Known>,
    room: usize,
    step: &AtomStep<'_>,
    state: &Known,
    pairs: &[Known],
) -> Result<usize, StatesFault>
    requires { IsDistinct set.old.keys }
    ensures room { IfOk result (HasRoom (room + sizes set.old.keys) set.new.keys) }
    ensures extends { IfOk result (λ _. Extends set.old.keys set.new.keys) }
    ensures grown { IfOk result (λ _. Grows set.old.keys set.new.keys
        (GivesSome step.now.numbers.now state.now step.now.places.now step.now.kept.now pairs.now)) }
    ensures many { result ≡ Err StatesFault.TooManyStates → HasMore (room + sizes set.old.keys)
        (λ d. IsMember d set.old.keys
        ⊎ GivesSome step.now.numbers.now state.now step.now.places.now step.now.kept.now pairs.now d) }
{
    let mut left = room;
    for pair in pairs {
        left = grow_by(alloc, lists, set, left, step, state, pair)?;
    }
    Ok(left)
}

/// Adds what each of the base pairs gives with each of the states.
#[tactic(auto, using(crate::proofs::Growing::extends_self))]
fn grow_by_all(
    alloc: Global,
    lists: &mut Lists,
    set: &mut IndexSet<Known>,
    room: usize,
    step: &AtomStep<'_>,
    states: &[Known],
    pairs: &[Known],
) -> Result<usize, StatesFault>
    requires { IsDistinct set.old.keys }
    ensures room { IfOk result (HasRoom (room + sizes set.old.keys) set.new.keys) }
    ensures extends { IfOk result (λ _. Extends set.old.keys set.new.keys) }
    ensures grown { IfOk result (λ _. Grows set.old.keys set.new.keys
        (GivesFrom step.now.numbers.now states.now step.now.places.now step.now.kept.now pairs.now)) }
    ensures many { result ≡ Err StatesFault.TooManyStates → HasMore (room + sizes set.old.keys)
        (λ d. IsMember d set.old.keys
        ⊎ GivesFrom step.now.numbers.now states.now step.now.places.now step.now.kept.now pairs.now d) }
{
    let mut left = room;
    for state in states {
        left = grow_by_each(alloc, lists, set, left, step, state, pairs)?;
    }
    Ok(left)
}

/// Adds what each of the base pairs gives with each of the states, each unless it is there. The room that is left for
/// base pairs is given, and comes back.
pub fn grow_states(
    alloc: Global,
    step: &AtomStep<'_>,
    set: &mut IndexSet<Known>,
    room: usize,
    states: &[Known],
    pairs: &[Known],
) -> Result<usize, StatesFault>
    requires { IsDistinct set.old.keys }
    ensures room { IfOk result (HasRoom (room + sizes set.old.keys) set.new.keys) }
    ensures extends { IfOk result (λ _. Extends set.old.keys set.new.keys) }
    ensures grown { IfOk result (λ _. Grows set.old.keys set.new.keys
        (GivesFrom step.now.numbers.now states.now step.now.places.now step.now.kept.now pairs.now)) }
    ensures many { result ≡ Err StatesFault.TooManyStates → HasMore (room + sizes set.old.keys)
        (λ d. IsMember d set.old.keys
        ⊎ GivesFrom step.now.numbers.now states.now step.now.places.now step.now.kept.now pairs.now d) }
{
    let mut lists = Lists::new(alloc);
    let left = grow_by_all(alloc, &mut lists, set, room, step, states, pairs);
    drop(lists);
    left
}

/// What the states give with one more atom, each once, unless that is more in size than `most`.
pub fn states_after(
    alloc: Global,
    step: &AtomStep<'_>,
    states: &[Known],
    pairs: &[Known],
    most: usize,
) -> Result<IndexSet<Known>, StatesFault>
    ensures given { IfOk result (λ v. Grows [] v.keys
        (GivesFrom step.now.numbers.now states.now step.now.places.now step.now.kept.now pairs.now)) }
    ensures few { IfOk result (λ v. sizes v.keys ≤ most) }
    ensures many { result ≡ Err StatesFault.TooManyStates → HasMore most
        (GivesFrom step.now.numbers.now states.now step.now.places.now step.now.kept.now pairs.now) }
{
    let mut set = IndexSet::new(alloc);
    let mut lists = Lists::new(alloc);
    match grow_by_all(alloc, &mut lists, &mut set, most, step, states, pairs) {
        Ok(_) => Ok(set),
        Err(fault) => Err(fault),
    }
}

/// The state alone, unless it is more in size than `most`.
pub fn first_states(
    alloc: Global,
    state: Known,
    most: usize,
) -> Result<IndexSet<Known>, StatesFault>
    ensures given { IfOk result (λ v. (d : BasePair) → IsMember d v.keys ↔ (d ≡ state)) }
    ensures few { IfOk result (λ v. sizes v.keys ≤ most) }
    ensures many { result ≡ Err StatesFault.TooManyStates → HasMore most (λ d. d ≡ state) }
{
    let mut set = IndexSet::new(alloc);
    match grow(&mut set, most, state) {
        Ok(_) => Ok(set),
        Err(fault) => Err(fault),
    }
}
