//! Ranks of states that rise along the moves whose events aren't earlier than a least one: a state isn't led to from
//! one of a greater rank.
//!
//! The ranks are those of the strongly connected components, sources first, found by one search in depth (Tarjan 1972).
//! No clause says so: `are_rising` tests what the decision needs of them.

ghost use Rattle.std.specs.Prelude.{◌≡◌, ◌<◌, true, List, Vec, Some, slice_get, slice_set, vec_len, OnOk, IfSome, []};
ghost use Rattle.std.specs.declared.alloc.Global.{Global};
ghost use Rattle.buchi_inclusion.specs.declared.product.Transition.{Transition};
ghost use Rattle.buchi_inclusion.specs.Ranks.{rank_at, IsRowRising, IsRising};
ghost use Rattle.buchi_inclusion.specs.Work.{edges_at, work_left};

use crate::product::Transition;
use buchi_core::{Event, earlier};
use cyc_basics::memory::OutOfMemory;
use std::alloc::Global;

/// The number at a place, 0 if there is none.
fn number_at(numbers: &[u32], place: usize) -> u32 {
    match numbers.get(place) {
        None => 0,
        Some(number) => *number,
    }
}

/// Puts the number at a place, if there is one.
fn put(numbers: &mut Vec<u32>, place: usize, number: u32)
    ensures { place < vec_len numbers.old → numbers.new.items ≡ slice_set numbers.old.items place number }
{
    if let Some(old) = numbers.get_mut(place) {
        *old = number;
    }
}

/// Lowers the number at a place to another one that is less.
fn lower(numbers: &mut Vec<u32>, place: usize, number: u32) {
    if let Some(old) = numbers.get_mut(place)
        && number < *old
    {
        *old = number;
    }
}

/// A search in depth: numbers of the states in the order in which they are found, from 1; the least number that each is
/// known to lead to within its component; the states whose component isn't complete; the states on the way, each with
/// its next edge; and the ranks so far, 0 where there is none, with the last one that was given.
#[derive(Drop)]
struct Search {
    found: u32,
    numbers: Vec<u32>,
    least: Vec<u32>,
    open: Vec<u32>,
    way: Vec<(u32, usize)>,
    ranks: Vec<u32>,
    rank: u32,
}

/// Enters a state that is new. Its edges are still to be followed, as they were before.
fn enter(search: &mut Search, state: u32) -> Result<(), OutOfMemory>
    requires new { slice_get search.old.numbers.items state ≡ Some 0 }
    ensures { (rows : List (Vec Transition Global))
        → OnOk result (work_left rows search.new ≡ work_left rows search.old) }
{
    search.found = search.found.saturating_add(1);
    put(&mut search.numbers, state as usize, search.found);
    put(&mut search.least, state as usize, search.found);
    search.open.push(state)?;
    search.way.push((state, 0))?;
    Ok(())
}

/// Follows an allowed edge of a state.
fn follow(search: &mut Search, state: u32, target: u32) -> Result<(), OutOfMemory>
    ensures { (rows : List (Vec Transition Global))
        → OnOk result (work_left rows search.new ≡ work_left rows search.old) }
{
    let Some(number) = search.numbers.get(target as usize).copied() else {
        return Ok(());
    };
    if number == 0 {
        return enter(search, target);
    }
    if number_at(&search.ranks, target as usize) == 0 {
        lower(&mut search.least, state as usize, number);
    }
    Ok(())
}

/// Gives a rank to the component of a state, which is complete.
fn close(search: &mut Search, root: u32)
    ensures { (search.new.way ≡ search.old.way) × (search.new.numbers ≡ search.old.numbers) }
{
    search.rank = search.rank.saturating_sub(1);
    while let Some(state) = search.open.pop() {
        put(&mut search.ranks, state as usize, search.rank);
        if state == root {
            return;
        }
    }
}

/// Leaves a state all of whose edges are followed.
fn leave(search: &mut Search, state: u32)
    ensures { (search.new.way ≡ search.old.way) × (search.new.numbers ≡ search.old.numbers) }
{
    let least = number_at(&search.least, state as usize);
    if least == number_at(&search.numbers, state as usize) {
        close(search, state);
        return;
    }
    if let Some((before, _)) = search.way.last().copied() {
        lower(&mut search.least, before as usize, least);
    }
}

/// The target of a state's edge, and whether the edge is allowed.
fn edge_of(rows: &[Vec<Transition>], least: Event, state: u32, edge: usize) -> Option<(u32, bool)>
    ensures { IfSome result (λ _. edge < edges_at rows.now state) }
{
    match rows.get(state as usize) {
        None => None,
        Some(row) => match row.get(edge) {
            None => None,
            Some(item) => Some((item.target, !earlier(item.event, least))),
        },
    }
}

/// Searches from a state, if it is new. Where memory holds what is found, it ends with nothing left on the way.
fn descend(
    search: &mut Search,
    rows: &[Vec<Transition>],
    least: Event,
    root: u32,
) -> Result<(), OutOfMemory>
    requires begins { search.old.way.items ≡ [] }
    ensures ended { OnOk result (search.new.way.items ≡ []) }
{
    let Some(0) = search.numbers.get(root as usize).copied() else {
        return Ok(());
    };
    enter(search, root)?;
    while let Some((state, edge)) = search.way.pop() {
        match edge_of(rows, least, state, edge) {
            None => leave(search, state),
            Some((target, allowed)) => {
                search.way.push((state, edge + 1))?;
                if allowed {
                    follow(search, state, target)?;
                }
            }
        }
    }
    Ok(())
}

/// A rank for each state.
pub fn ranks_of(
    alloc: Global,
    rows: &[Vec<Transition>],
    least: Event,
) -> Result<Vec<u32>, OutOfMemory> {
    let count = rows.len();
    let mut search = Search {
        found: 0,
        numbers: vec![in alloc; 0u32; count]?,
        least: vec![in alloc; 0u32; count]?,
        open: Vec::with_capacity(alloc, count)?,
        way: Vec::with_capacity(alloc, count)?,
        ranks: vec![in alloc; 0u32; count]?,
        rank: u32::MAX,
    };
    for root in 0..count {
        if let Ok(root) = u32::try_from(root) {
            descend(&mut search, rows, least, root)?;
        }
    }
    Ok(search.ranks)
}

/// A state's rank.
pub fn rank_of(ranks: &[u32], state: usize) -> u32
    ensures { result ≡ rank_at ranks.now state }
{
    match ranks.get(state) {
        None => 0,
        Some(rank) => *rank,
    }
}

/// Whether no allowed move of the row leads below the rank.
fn is_row_rising(row: &[Transition], least: Event, ranks: &[u32], rank: u32) -> bool
    ensures { result ≡ true → IsRowRising least row.now ranks.now rank }
{
    for item in row {
        if !earlier(item.event, least) && rank_of(ranks, item.target as usize) < rank {
            return false;
        }
    }
    true
}

/// Whether no allowed move leads to a lower rank.
pub fn are_rising(rows: &[Vec<Transition>], least: Event, ranks: &[u32]) -> bool
    ensures { result ≡ true → IsRising least rows.now ranks.now }
{
    for (state, row) in rows.iter().enumerate() {
        let rank = rank_of(ranks, state);
        if !is_row_rising(row, least, ranks, rank) {
            return false;
        }
    }
    true
}
