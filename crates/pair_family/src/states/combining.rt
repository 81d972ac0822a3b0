// A base pair is taken in.
ghost use Rattle.std.specs.Prelude.{◌≡◌, ◌<◌, ◌≤◌, IfOk, length};
ghost use Rattle.pair_family.specs.Combination.{upto};
ghost use Rattle.pair_family.specs.Labels.{said_by, labels_at, combined_pairs, combined, IfApart};

use crate::states::known::Known;
use crate::states::labels::{
    are_apart, are_first, cell_numbers, fill_differences, fill_labels, fill_numbers, join_both,
};
use crate::states::near::differing_set;
use crate::states::pairs::same_set;
use std::alloc::{AllocError, Global};

/// Lists that are used again for each combination.
#[derive(Drop)]
pub struct Lists {
    labels: Vec<u64>,
    cells: Vec<usize>,
    addresses: Vec<u64>,
    differences: Vec<(u64, u64)>,
    kept: Vec<u64>,
}

impl Lists {
    pub fn new(alloc: Global) -> Lists {
        Lists {
            labels: Vec::new(alloc),
            cells: Vec::new(alloc),
            addresses: Vec::new(alloc),
            differences: Vec::new(alloc),
            kept: Vec::new(alloc),
        }
    }
}

/// What is said of labels.
fn say(
    alloc: Global,
    labels: &[u64],
    differences: &[(u64, u64)],
    cells: &[u64],
) -> Result<Known, AllocError>
    ensures { IfOk result (λ k. k ≡ said_by labels.now differences.now cells.now) }
{
    let same = same_set(alloc, labels)?;
    let differ = differing_set(alloc, labels, differences)?;
    let cells = cell_numbers(alloc, labels, cells)?;
    Ok(Known::of_sets(same, differ, cells))
}

/// What is said of as many labels as there are numbers, where these are the first ones.
fn say_first(
    alloc: Global,
    labels: &[u64],
    differences: &[(u64, u64)],
    cells: &[u64],
    numbers: &[usize],
) -> Result<Known, AllocError>
    requires first { numbers.now ≡ upto (length numbers.now) }
    requires few { length numbers.now ≤ length labels.now }
    ensures { IfOk result (λ k. k ≡ said_by (labels_at labels.now numbers.now) differences.now cells.now) }
{
    say(alloc, &labels[..numbers.len()], differences, cells)
}

/// What is said of the labels of some numbers.
fn say_of(
    alloc: Global,
    kept_labels: &mut Vec<u64>,
    labels: &[u64],
    differences: &[(u64, u64)],
    cells: &[u64],
    kept: &[usize],
) -> Result<Known, AllocError>
    ensures { IfOk result (λ k. k ≡ said_by (labels_at labels.now kept.now) differences.now cells.now) }
{
    if kept.len() <= labels.len() && are_first(kept) {
        return say_first(alloc, labels, differences, cells, kept);
    }
    fill_labels(kept_labels, labels, kept)?;
    say(alloc, kept_labels, differences, cells)
}

/// What is said of labels, those of some numbers, unless a difference is within a class.
fn tell(
    alloc: Global,
    kept_labels: &mut Vec<u64>,
    labels: &[u64],
    differences: &[(u64, u64)],
    cells: &[u64],
    kept: &[usize],
) -> Result<Option<Known>, AllocError>
    ensures { IfOk result (IfApart differences.now
        (said_by (labels_at labels.now kept.now) differences.now cells.now)) }
{
    if !are_apart(differences) {
        return Ok(None);
    }
    let known = say_of(alloc, kept_labels, labels, differences, cells, kept)?;
    Ok(Some(known))
}

/// What is known of some numbers after a base pair of the numbers at some places, unless a difference is within a
/// class. The lists may be any.
pub fn combine_in(
    alloc: Global,
    lists: &mut Lists,
    start: &[u64],
    state: &Known,
    places: &[usize],
    pair: &Known,
    kept: &[usize],
) -> Result<Option<Known>, AllocError>
    ensures { IfOk result (IfApart (combined_pairs start.now state.now places.now pair.now)
        (combined start.now state.now places.now pair.now kept.now)) }
{
    join_both(&mut lists.labels, start, state.same(), places, pair.same())?;
    fill_numbers(&mut lists.cells, state.cells(), places, pair.cells())?;
    fill_labels(&mut lists.addresses, &lists.labels, &lists.cells)?;
    fill_differences(
        &mut lists.differences,
        &lists.labels,
        state.differ(),
        places,
        pair.differ(),
        &lists.addresses,
    )?;
    tell(
        alloc,
        &mut lists.kept,
        &lists.labels,
        &lists.differences,
        &lists.addresses,
        kept,
    )
}

/// What is known of some numbers after a base pair of the numbers at some places, unless a difference is within a
/// class.
pub fn combine(
    alloc: Global,
    start: &[u64],
    state: &Known,
    places: &[usize],
    pair: &Known,
    kept: &[usize],
) -> Result<Option<Known>, AllocError>
    ensures { IfOk result (IfApart (combined_pairs start.now state.now places.now pair.now)
        (combined start.now state.now places.now pair.now kept.now)) }
{
    let mut lists = Lists::new(alloc);
    let combined = combine_in(alloc, &mut lists, start, state, places, pair, kept);
    drop(lists);
    combined
}
