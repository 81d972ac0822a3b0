// What a symbolic heap gives with base pairs of a table.
ghost use Rattle.std.specs.Prelude.{◌≡◌, ◌↔◌, ◌<◌, ◌≤◌, ◌++◌, ◌∷◌, [], suc, length, Err, IfOk, IsTrue};
ghost use Rattle.heap_formula.specs.Words.{Each};
ghost use Rattle.pair_family.specs.BasePairs.{BasePair};
ghost use Rattle.pair_family.specs.Closedness.{HasFields, AreCases};
ghost use Rattle.pair_family.specs.Family.{CaseGives, InFamily};
ghost use Rattle.pair_family.specs.Folding.{spoken};
ghost use Rattle.pair_family.specs.Frames.{kept_terms, frames_of};
ghost use Rattle.pair_family.specs.LargeCases.{sizes, HasMore, IsLarge};
ghost use Rattle.pair_family.specs.Reordering.{families_of};
ghost use Rattle.pair_family.specs.States.{AreStates};
ghost use Rattle.pair_family.specs.Statements.{IsSatisfiable};
ghost use Rattle.pair_family.specs.Tables.{IsTable, in_table};
ghost use Rattle.cyc_basics.specs.Words.{IsMember};
ghost use Rattle.pair_family.specs.Within.{IsWithin};
ghost use Rattle.sat_pairs.specs.Numbers.{places_in, cell_pair_alone, equal_places, differ_places, pure_pair_at};
ghost use Rattle.sat_pairs.specs.Atoms.{lists_of, AtomsGive, HasSome};
ghost use Rattle.sat_pairs.specs.CaseStates.{GivesBy, GivesTo, Passes, PassesFrom, Starts, StartsAt, StepsBy, StepsTo};

use crate::atoms::{have_some, pairs_of_atom};
use crate::numbers::{
    kept_numbers, number_of, numbers_below, place_of, places_of, push_pure, push_spoken,
};
use crate::orders::in_join_order;
use crate::tables::Table;
use cyc_basics::memory::OutOfMemory;
use heap_formula::{Heap, Pure, Spatial};
use indexmap::IndexSet;
use pair_family::states::{AtomStep, Known, StatesFault, combine, first_states, states_after};
use pred_defs::Defs;
use std::alloc::Global;

fn push_equal(
    pairs: &mut Vec<(usize, usize)>,
    numbers: &[u64],
    atoms: &[Pure],
) -> Result<(), OutOfMemory>
    ensures { IfOk result (λ _. pairs.new.items ≡ pairs.old.items ++ equal_places numbers.now atoms.now) }
{
    for atom in atoms {
        match *atom {
            Pure::Eq(t, u) => {
                pairs.push((
                    place_of(numbers, number_of(t)),
                    place_of(numbers, number_of(u)),
                ))?
            }
            Pure::Neq(_, _) => {}
        }
    }
    Ok(())
}

fn push_differ(
    pairs: &mut Vec<(usize, usize)>,
    numbers: &[u64],
    atoms: &[Pure],
) -> Result<(), OutOfMemory>
    ensures { IfOk result (λ _. pairs.new.items ≡ pairs.old.items ++ differ_places numbers.now atoms.now) }
{
    for atom in atoms {
        match *atom {
            Pure::Eq(_, _) => {}
            Pure::Neq(t, u) => {
                pairs.push((
                    place_of(numbers, number_of(t)),
                    place_of(numbers, number_of(u)),
                ))?
            }
        }
    }
    Ok(())
}

/// What pure atoms say of the places of their terms.
fn pure_pair(alloc: Global, numbers: &[u64], atoms: &[Pure]) -> Result<Known, OutOfMemory>
    ensures { IfOk result (λ k. k ≡ pure_pair_at numbers.now atoms.now) }
{
    let mut same = Vec::new(alloc);
    push_equal(&mut same, numbers, atoms)?;
    let mut differ = Vec::new(alloc);
    push_differ(&mut differ, numbers, atoms)?;
    Ok(Known::new(same, differ, Vec::new(alloc)))
}

/// What pure atoms say of the first `count` numbers, unless they exclude one another.
fn start_at(
    alloc: Global,
    numbers: &[u64],
    count: usize,
    atoms: &[Pure],
) -> Result<Option<Known>, OutOfMemory>
    ensures { IfOk result (StartsAt numbers.now count atoms.now) }
{
    let kept = numbers_below(alloc, count)?;
    let stated = pure_pair(alloc, numbers, atoms)?;
    let none = Known::new(Vec::new(alloc), Vec::new(alloc), Vec::new(alloc));
    let combined = combine(alloc, numbers, &stated, &[], &none, &kept);
    drop(stated);
    drop(none);
    drop(kept);
    Ok(combined?)
}

/// What the pure atoms say of the terms that the atoms speak of and of the parameters, unless they exclude one another.
pub fn start(
    alloc: Global,
    k: u32,
    atoms: &[Spatial],
    pure: &[Pure],
) -> Result<Option<Known>, OutOfMemory>
    ensures { IfOk result (Starts k atoms.now pure.now) }
{
    let mut numbers = kept_numbers(alloc, k, atoms)?;
    let count = numbers.len();
    push_pure(&mut numbers, pure)?;
    start_at(alloc, &numbers, count, pure)
}

/// The base pair of a cell, alone: it says of its address, as its one argument, that it is a cell.
pub fn cell_pairs(alloc: Global) -> Result<Vec<Known>, OutOfMemory>
    ensures { IfOk result (λ v. v.items ≡ cell_pair_alone) }
{
    let mut cells = Vec::new(alloc);
    cells.push(1)?;
    let mut pairs = Vec::new(alloc);
    pairs.push(Known::new(Vec::new(alloc), Vec::new(alloc), cells))?;
    Ok(pairs)
}

/// The places of nil and of the terms that an atom's base pair speaks of.
pub fn places_for(alloc: Global, numbers: &[u64], atom: &Spatial) -> Result<Vec<usize>, OutOfMemory>
    ensures { IfOk result (λ v. v.items ≡ places_in numbers.now (spoken atom.now)) }
{
    match atom {
        Spatial::Cell(t, _) => places_of(alloc, numbers, &[*t]),
        Spatial::Pred(_, args) => places_of(alloc, numbers, args.as_slice()),
    }
}

/// The states after one more atom; `after` is how many terms are kept then.
fn step(
    alloc: Global,
    numbers: &[u64],
    after: usize,
    atom: &Spatial,
    pairs: &[Known],
    states: &[Known],
    most: usize,
) -> Result<IndexSet<Known>, StatesFault>
    ensures given { IfOk result (λ v. StepsBy numbers.now after atom.now pairs.now states.now v.keys) }
    ensures few { IfOk result (λ v. sizes v.keys ≤ most) }
    ensures many { result ≡ Err StatesFault.TooManyStates
        → HasMore most (GivesBy numbers.now after atom.now pairs.now states.now) }
{
    let kept = numbers_below(alloc, after)?;
    let places = places_for(alloc, numbers, atom)?;
    let step = AtomStep {
        numbers,
        places: &places,
        kept: &kept,
    };
    let next = states_after(alloc, &step, states, pairs, most);
    drop(places);
    drop(kept);
    next
}

/// The states after an atom that stands before the atoms `rest`.
fn step_to(
    alloc: Global,
    k: u32,
    atom: &Spatial,
    rest: &[Spatial],
    pairs: &[Known],
    states: &[Known],
    most: usize,
) -> Result<IndexSet<Known>, StatesFault>
    ensures given { IfOk result (λ v. StepsTo k atom.now rest.now pairs.now states.now v.keys) }
    ensures few { IfOk result (λ v. sizes v.keys ≤ most) }
    ensures many { result ≡ Err StatesFault.TooManyStates
        → HasMore most (GivesTo k atom.now rest.now pairs.now states.now) }
{
    let mut numbers = kept_numbers(alloc, k, rest)?;
    let after = numbers.len();
    push_spoken(&mut numbers, atom)?;
    step(alloc, &numbers, after, atom, pairs, states, most)
}

/// The first atom, and the others.
fn first_of(atoms: &[Spatial]) -> (&Spatial, &[Spatial])
    requires { 0 < length atoms.now }
    ensures { atoms.now ≡ result.0.now ∷ result.1.now }
{
    (&atoms[0], &atoms[1..])
}

/// The states after the atoms, in this order, unless those after some of them are too much.
fn fold(
    alloc: Global,
    table: &Table,
    cell: &[Known],
    k: u32,
    atoms: &[Spatial],
    states: IndexSet<Known>,
    most: usize,
) -> Result<IndexSet<Known>, StatesFault>
    requires cell { cell.now ≡ cell_pair_alone }
    requires within { Each (IsWithin (suc (length (kept_terms k atoms.now)))) states.keys }
    requires few { sizes states.keys ≤ most }
    ensures given { IfOk result (λ out. AreStates (families_of (lists_of table.now cell.now atoms.now))
        (frames_of k atoms.now) states.keys atoms.now out.keys) }
    ensures few { IfOk result (λ _. ¬ PassesFrom most (families_of (lists_of table.now cell.now atoms.now))
        (frames_of k atoms.now) states.keys atoms.now) }
    ensures many { result ≡ Err StatesFault.TooManyStates → PassesFrom most
        (families_of (lists_of table.now cell.now atoms.now))
        (frames_of k atoms.now) states.keys atoms.now }
{
    if atoms.is_empty() {
        return Ok(states);
    }
    let (atom, rest) = first_of(atoms);
    let pairs = pairs_of_atom(table, cell, atom);
    let next = step_to(alloc, k, atom, rest, pairs, states.as_slice(), most);
    drop(states);
    fold(alloc, table, cell, k, rest, next?, most)
}

/// The base pairs that atoms in this order give, with pure atoms, for a predicate with k parameters, unless the states
/// after some of the atoms are too much.
fn given_in_order(
    alloc: Global,
    table: &Table,
    cell: &[Known],
    k: u32,
    atoms: &[Spatial],
    pure: &[Pure],
    most: usize,
) -> Result<IndexSet<Known>, StatesFault>
    requires cell { cell.now ≡ cell_pair_alone }
    ensures given { IfOk result (λ out. (d : BasePair)
        → IsMember d out.keys ↔ AtomsGive table.now cell.now k pure.now d atoms.now) }
    ensures few { IfOk result (λ _. ¬ Passes most (families_of (lists_of table.now cell.now atoms.now)) k
        pure.now atoms.now) }
    ensures many { result ≡ Err StatesFault.TooManyStates
        → Passes most (families_of (lists_of table.now cell.now atoms.now)) k pure.now atoms.now }
{
    let Some(first) = start(alloc, k, atoms, pure)? else {
        return Ok(IndexSet::new(alloc));
    };
    let states = first_states(alloc, first, most)?;
    fold(alloc, table, cell, k, atoms, states, most)
}

/// The base pairs that a case gives, each of whose atoms has some base pair, in the order of a join.
fn given_in_join(
    alloc: Global,
    table: &Table,
    cell: &[Known],
    k: u32,
    case: &Heap,
    most: usize,
) -> Result<IndexSet<Known>, StatesFault>
    requires cell { cell.now ≡ cell_pair_alone }
    requires some { HasSome table.now cell.now case.now.spatial }
    ensures given { IfOk result (λ out. (d : BasePair)
        → IsMember d out.keys ↔ CaseGives (in_table table.now) k d case.now) }
    ensures few { IfOk result (λ _. ¬ IsLarge most (in_table table.now) k case.now) }
    ensures many { result ≡ Err StatesFault.TooManyStates → IsLarge most (in_table table.now) k case.now }
{
    let ordered = in_join_order(alloc, k, case.spatial())?;
    given_in_order(alloc, table, cell, k, &ordered, case.pure(), most)
}

/// The base pairs that a case of a predicate with k parameters gives with base pairs of the table, unless the case is
/// large.
pub fn given_by(
    alloc: Global,
    table: &Table,
    k: u32,
    case: &Heap,
    most: usize,
) -> Result<IndexSet<Known>, StatesFault>
    ensures given { IfOk result (λ out. (d : BasePair)
        → IsMember d out.keys ↔ CaseGives (in_table table.now) k d case.now) }
    ensures few { IfOk result (λ _. ¬ IsLarge most (in_table table.now) k case.now) }
    ensures many { result ≡ Err StatesFault.TooManyStates → IsLarge most (in_table table.now) k case.now }
{
    let cell = cell_pairs(alloc)?;
    if !have_some(table, &cell, case.spatial()) {
        return Ok(IndexSet::new(alloc));
    }
    given_in_join(alloc, table, &cell, k, case, most)
}

/// Whether some stack and heap satisfy a symbolic heap, unless its states are more in size than `most`. The table is
/// that of the definitions.
pub fn satisfiable_within(
    alloc: Global,
    _defs: &Defs,
    table: &Table,
    heap: &Heap,
    most: usize,
) -> Result<bool, StatesFault>
    requires closed { AreCases _defs.now.list }
    requires table { IsTable _defs.now.list table.now }
    requires fields { Each HasFields heap.now.spatial }
    ensures exact { IfOk result (λ b. IsTrue b ↔ IsSatisfiable _defs.now.list heap.now) }
    ensures few { IfOk result (λ _. ¬ IsLarge most (InFamily _defs.now.list) 0 heap.now) }
    ensures many { result ≡ Err StatesFault.TooManyStates → IsLarge most (InFamily _defs.now.list) 0 heap.now }
{
    let states = given_by(alloc, table, 0, heap, most)?;
    let is_satisfiable = !states.is_empty();
    drop(states);
    Ok(is_satisfiable)
}

/// Whether some stack and heap satisfy a symbolic heap. The table is that of the definitions. Where the states are more
/// than can be counted, there is no memory for them.
pub fn satisfiable(
    alloc: Global,
    defs: &Defs,
    table: &Table,
    heap: &Heap,
) -> Result<bool, OutOfMemory>
    requires closed { AreCases defs.now.list }
    requires table { IsTable defs.now.list table.now }
    requires fields { Each HasFields heap.now.spatial }
    ensures exact { IfOk result (λ b. IsTrue b ↔ IsSatisfiable defs.now.list heap.now) }
{
    match satisfiable_within(alloc, defs, table, heap, usize::MAX) {
        Ok(yes) => Ok(yes),
        Err(_) => Err(OutOfMemory),
    }
}
