// The base pairs of all predicates.
ghost use Rattle.std.specs.Prelude.{ℕ, ◌≡◌, ◌<◌, ◌≤◌, length, map, take, Err, IfOk};
ghost use Rattle.heap_formula.specs.Words.{Each};
ghost use Rattle.pair_family.specs.Family.{InFamily};
ghost use Rattle.pair_family.specs.LargeCases.{HasLargeCase};
ghost use Rattle.pair_family.specs.Tables.{IsTable, HasAtMost, HasMoreThan, pairs_of};
ghost use Rattle.cyc_basics.specs.Words.{IsMember};
ghost use Rattle.sat_pairs.specs.Growth.{total, IsPartOf, IsGrown, AreInFamily, HasPairs};
ghost use Rattle.sat_pairs.specs.Numbers.{cell_pair_alone};
ghost use Rattle.sat_pairs.specs.Turns.{IsDone, IsTurn, case_of, found_by};

use crate::agenda::Agenda;
use crate::cases::cell_pairs;
use crate::tables::Table;
use crate::turns::{Turn, arity_at, have_pairs, turns_of};
use cyc_basics::memory::OutOfMemory;
use pair_family::states::{Known, StatesFault};
use pred_defs::Defs;
use std::alloc::{AllocError, Global};

/// How many base pairs are made at most, of all predicates; and how much the states of a case may be in size, where
/// each counts for one more than the facts in it.
#[derive(Clone, Copy, Debug)]
pub struct Limits {
    pub pairs: u32,
    pub states: u32,
}

/// Why there is no table: more base pairs than asked for, a case with more states, or out of memory.
#[derive(Clone, Copy, PartialEq, Eq, Debug)]
pub enum PairFault {
    TooManyPairs,
    TooManyStates,
    OutOfMemory,
}

impl From<OutOfMemory> for PairFault {
    ghost use Rattle.sat_pairs.specs.declared.rounds.PairFault.TheVariants.{OutOfMemory as memory_wanted};
    ghost use Rattle.std.specs.Prelude.{◌≡◌};

    ghost from_gives = { λ _ e. e ≡ memory_wanted };

    fn from(_error: OutOfMemory) -> PairFault {
        PairFault::OutOfMemory
    }
}

impl From<AllocError> for PairFault {
    ghost use Rattle.sat_pairs.specs.declared.rounds.PairFault.TheVariants.{OutOfMemory as memory_wanted};
    ghost use Rattle.std.specs.Prelude.{◌≡◌};

    ghost from_gives = { λ _ e. e ≡ memory_wanted };

    fn from(_error: AllocError) -> PairFault {
        PairFault::OutOfMemory
    }
}

impl From<StatesFault> for PairFault {
    ghost use Rattle.sat_pairs.specs.Growth.{pair_fault_of};
    ghost use Rattle.std.specs.Prelude.{◌≡◌};

    ghost from_gives = { λ f e. e ≡ pair_fault_of f };

    fn from(fault: StatesFault) -> PairFault {
        match fault {
            StatesFault::TooManyStates => PairFault::TooManyStates,
            StatesFault::OutOfMemory => PairFault::OutOfMemory,
        }
    }
}

/// Adds a base pair of the family, unless it is there; `count` is how many there are, and so is the result then.
#[tactic(auto, using(crate::proofs::Taken::grown_self))]
fn put(
    _defs: &Defs,
    table: &mut Table,
    count: usize,
    limits: Limits,
    pred: u16,
    known: Known,
) -> Result<usize, PairFault>
    requires part { IsPartOf _defs.now.list limits.pairs table.old }
    requires count { count ≡ total table.old }
    requires there { pred < length table.old }
    requires member { InFamily _defs.now.list pred known }
    ensures part { IfOk result (λ n. IsPartOf _defs.now.list limits.pairs table.new × (n ≡ total table.new)) }
    ensures grown { IfOk result (λ _. IsGrown table.old table.new) }
    ensures taken { IfOk result (λ _. IsMember known (pairs_of table.new pred)) }
    ensures many { (result ≡ Err PairFault.TooManyPairs) → HasMoreThan _defs.now.list limits.pairs }
    ensures no_states { (result ≡ Err PairFault.TooManyStates) → ⊥ }
{
    let is_new = table.insert(pred, known)?;
    if !is_new {
        return Ok(count);
    }
    if count >= limits.pairs as usize {
        return Err(PairFault::TooManyPairs);
    }
    Ok(count + 1)
}

/// Adds base pairs of the family, each unless it is there.
#[tactic(auto, using(crate::proofs::Taken::grown_self))]
fn put_all(
    defs: &Defs,
    table: &mut Table,
    count: usize,
    limits: Limits,
    pred: u16,
    found: &[Known],
) -> Result<usize, PairFault>
    requires part { IsPartOf defs.now.list limits.pairs table.old }
    requires count { count ≡ total table.old }
    requires there { pred < length table.old }
    requires members { AreInFamily defs.now.list pred found.now }
    ensures part { IfOk result (λ n. IsPartOf defs.now.list limits.pairs table.new × (n ≡ total table.new)) }
    ensures grown { IfOk result (λ _. IsGrown table.old table.new) }
    ensures taken { IfOk result (λ _. HasPairs table.new pred found.now) }
    ensures many { (result ≡ Err PairFault.TooManyPairs) → HasMoreThan defs.now.list limits.pairs }
    ensures no_states { (result ≡ Err PairFault.TooManyStates) → ⊥ }
{
    let mut now = count;
    for known in found {
        let copy = known.clone()?;
        now = put(defs, table, now, limits, pred, copy)?;
    }
    Ok(now)
}

/// Adds what a case has found since it was last put into the table.
fn put_found(
    defs: &Defs,
    table: &mut Table,
    count: usize,
    limits: Limits,
    turn: &mut Turn,
) -> Result<usize, PairFault>
    requires part { IsPartOf defs.now.list limits.pairs table.old }
    requires count { count ≡ total table.old }
    requires there { turn.old.pred < length table.old }
    requires put { turn.old.put ≤ length (found_by turn.old) }
    requires given { HasPairs table.old turn.old.pred (take turn.old.put (found_by turn.old)) }
    requires members { AreInFamily defs.now.list turn.old.pred (found_by turn.old) }
    ensures part { IfOk result (λ n. IsPartOf defs.now.list limits.pairs table.new × (n ≡ total table.new)) }
    ensures grown { IfOk result (λ _. IsGrown table.old table.new) }
    ensures turn { IfOk result (λ _. turn.new ≡ record turn.old { put = length (found_by turn.old) }) }
    ensures taken { IfOk result (λ _. HasPairs table.new turn.old.pred (found_by turn.old)) }
    ensures many { (result ≡ Err PairFault.TooManyPairs) → HasMoreThan defs.now.list limits.pairs }
    ensures no_states { (result ≡ Err PairFault.TooManyStates) → ⊥ }
{
    let found = turn.found();
    let end = found.len();
    let now = put_all(defs, table, count, limits, turn.pred, &found[turn.put..])?;
    turn.put = end;
    Ok(now)
}

/// Adds what a case gives with the base pairs that have come since its last turn, unless the case is large.
#[tactic(auto, using(crate::proofs::Taken::grown_self))]
fn put_turn(
    alloc: Global,
    defs: &Defs,
    table: &mut Table,
    cell: &[Known],
    count: usize,
    limits: Limits,
    turn: &mut Turn,
) -> Result<usize, PairFault>
    requires part { IsPartOf defs.now.list limits.pairs table.old }
    requires count { count ≡ total table.old }
    requires cell { cell.now ≡ cell_pair_alone }
    requires turn { IsTurn defs.now.list limits.states table.old cell.now turn.old }
    ensures part { IfOk result (λ n. IsPartOf defs.now.list limits.pairs table.new × (n ≡ total table.new)) }
    ensures grown { IfOk result (λ _. IsGrown table.old table.new) }
    ensures same { IfOk result (λ _. case_of turn.new ≡ case_of turn.old) }
    ensures turn { IfOk result (λ _. IsTurn defs.now.list limits.states table.new cell.now turn.new) }
    ensures done { IfOk result (λ _. IsDone defs.now.list limits.states table.old table.new turn.new) }
    ensures many { (result ≡ Err PairFault.TooManyPairs) → HasMoreThan defs.now.list limits.pairs }
    ensures large { (result ≡ Err PairFault.TooManyStates)
        → HasLargeCase defs.now.list limits.states (InFamily defs.now.list) }
{
    if !have_pairs(table, cell, &turn.stages) {
        return Ok(count);
    }
    let k = arity_at(defs, turn.pred);
    turn.take_in(alloc, defs, table, cell, k, limits.states as usize)?;
    let now = put_found(defs, table, count, limits, turn)?;
    Ok(now)
}

/// Goes through all cases, each with the base pairs that have come since its last turn, unless one is large.
#[tactic(auto, using(crate::proofs::Taken::grown_self))]
fn sweep(
    alloc: Global,
    defs: &Defs,
    turns: &mut Vec<Turn>,
    table: &mut Table,
    cell: &[Known],
    count: usize,
    limits: Limits,
) -> Result<usize, PairFault>
    requires part { IsPartOf defs.now.list limits.pairs table.old }
    requires count { count ≡ total table.old }
    requires cell { cell.now ≡ cell_pair_alone }
    requires turns { Each (IsTurn defs.now.list limits.states table.old cell.now) turns.old.items }
    ensures part { IfOk result (λ n. IsPartOf defs.now.list limits.pairs table.new × (n ≡ total table.new)) }
    ensures grown { IfOk result (λ _. IsGrown table.old table.new) }
    ensures same { IfOk result (λ _. map case_of turns.new.items ≡ map case_of turns.old.items) }
    ensures turns { IfOk result (λ _.
        Each (IsTurn defs.now.list limits.states table.new cell.now) turns.new.items) }
    ensures done { IfOk result (λ _.
        Each (IsDone defs.now.list limits.states table.old table.new) turns.new.items) }
    ensures many { (result ≡ Err PairFault.TooManyPairs) → HasMoreThan defs.now.list limits.pairs }
    ensures large { (result ≡ Err PairFault.TooManyStates)
        → HasLargeCase defs.now.list limits.states (InFamily defs.now.list) }
{
    let mut now = count;
    for place in 0..turns.len() {
        now = put_turn(alloc, defs, table, cell, now, limits, &mut turns[place])?;
    }
    Ok(now)
}

/// Goes through the cases that wait, the longest waiting first, each with the base pairs that have come since its last
/// turn: where one gives a base pair that is new, the cases that use its predicate wait again. It ends where none is
/// left.
#[tactic(auto, using(crate::proofs::Taken::grown_self))]
fn work_through(
    alloc: Global,
    defs: &Defs,
    agenda: &mut Agenda,
    turns: &mut Vec<Turn>,
    table: &mut Table,
    cell: &[Known],
    count: usize,
    limits: Limits,
) -> Result<usize, PairFault>
    requires part { IsPartOf defs.now.list limits.pairs table.old }
    requires count { count ≡ total table.old }
    requires cell { cell.now ≡ cell_pair_alone }
    requires turns { Each (IsTurn defs.now.list limits.states table.old cell.now) turns.old.items }
    ensures part { IfOk result (λ n. IsPartOf defs.now.list limits.pairs table.new × (n ≡ total table.new)) }
    ensures grown { IfOk result (λ _. IsGrown table.old table.new) }
    ensures same { IfOk result (λ _. map case_of turns.new.items ≡ map case_of turns.old.items) }
    ensures turns { IfOk result (λ _.
        Each (IsTurn defs.now.list limits.states table.new cell.now) turns.new.items) }
    ensures many { (result ≡ Err PairFault.TooManyPairs) → HasMoreThan defs.now.list limits.pairs }
    ensures large { (result ≡ Err PairFault.TooManyStates)
        → HasLargeCase defs.now.list limits.states (InFamily defs.now.list) }
{
    let mut now = count;
    for _turn in 0..usize::MAX {
        let place = match agenda.next() {
            Some(place) if place < turns.len() => place,
            _ => return Ok(now),
        };
        let before = now;
        now = put_turn(alloc, defs, table, cell, now, limits, &mut turns[place])?;
        if now > before {
            agenda.add_users(turns[place].pred)?;
        }
    }
    Ok(now)
}

/// The base pairs of all predicates: the least family that has what each case gives, unless that is too much.
/// Cases are done again where a predicate that they use has grown, each with the base pairs that have come since it was
/// last done; and then all are gone through once more, until that gives nothing new. So at no time are there more than
/// asked for and one.
pub fn base_pairs(alloc: Global, defs: &Defs, limits: Limits) -> Result<Table, PairFault>
    ensures table { IfOk result (λ t. IsTable defs.now.list t × HasAtMost defs.now.list limits.pairs) }
    ensures small { IfOk result (λ _. ¬ HasLargeCase defs.now.list limits.states (InFamily defs.now.list)) }
    ensures many { (result ≡ Err PairFault.TooManyPairs) → HasMoreThan defs.now.list limits.pairs }
    ensures large { (result ≡ Err PairFault.TooManyStates)
        → HasLargeCase defs.now.list limits.states (InFamily defs.now.list) }
{
    let cell = cell_pairs(alloc)?;
    let mut table = Table::empty(alloc, defs.as_slice().len())?;
    let mut turns = turns_of(alloc, defs, limits.states as usize)?;
    let mut agenda = Agenda::new(alloc, defs.as_slice().len(), &turns)?;
    let mut count = 0;
    loop {
        let worked = work_through(
            alloc,
            defs,
            &mut agenda,
            &mut turns,
            &mut table,
            &cell,
            count,
            limits,
        )?;
        let now = sweep(alloc, defs, &mut turns, &mut table, &cell, worked, limits)?;
        if now == worked {
            return Ok(table);
        }
        count = now;
    }
}
