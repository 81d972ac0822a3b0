// Labels of the terms, equal for terms of one class.
ghost use Rattle.std.specs.Prelude.{◌≡◌, ◌≢◌, ◌<◌, ◌^◌, ◌++◌, ◌∷◌, [], ◌↔◌, IsTrue, if◌then◌else◌, length, map, filter};
ghost use Rattle.std.specs.Prelude.{slice_index, nat_eq, IfOk};
ghost use Rattle.std.specs.List.{list_any};
ghost use Rattle.heap_formula.specs.Words.{Each};
ghost use Rattle.pair_family.specs.Combination.{upto, pairs_below, each_two};
ghost use Rattle.pair_family.specs.Labels.{row, has_same, neighbours, has_difference, is_first_label, is_cell_label};
ghost use Rattle.pair_family.specs.Labels.{relabelled, joined_labels, labels_at, label_pairs, cell_pairs, pairs_at};
ghost use Rattle.pair_family.specs.Labels.{numbers_at, different_pairs};
ghost use Rattle.pair_family.specs.Masks.{pairs_in};

use crate::states::masks::first_pair;
use crate::states::pairs::PairSet;
use std::alloc::{AllocError, Global};

/// The new label in place of the old one.
fn relabel_one(label: u64, old: u64, new: u64) -> u64
    ensures { result ≡ relabelled old new label }
{
    if label == old { new } else { label }
}

/// The class of one label becomes that of another.
fn relabel(labels: &mut [u64], old: u64, new: u64)
    ensures { labels.new ≡ map (relabelled old new) labels.old }
{
    for label in labels.iter_mut() {
        *label = relabel_one(*label, old, new);
    }
}

/// Fills a list with the labels that some difference joins with a label.
fn fill_neighbours(
    near: &mut Vec<u64>,
    differences: &[(u64, u64)],
    label: u64,
) -> Result<(), AllocError>
    ensures { IfOk result (λ _. near.new.items ≡ neighbours label differences.now) }
{
    near.clear();
    for difference in differences {
        let (left, right) = *difference;
        push_label_if(near, left == label, right)?;
        push_label_if(near, right == label, left)?;
    }
    Ok(())
}

fn push_label_if(labels: &mut Vec<u64>, holds: bool, label: u64) -> Result<(), AllocError>
    ensures { IfOk result (λ _. labels.new.items ≡ labels.old.items ++ (if holds then label ∷ [] else [])) }
{
    if holds {
        labels.push(label)?;
    }
    Ok(())
}

/// Adds a pair where that is so.
pub fn push_if(
    pairs: &mut Vec<(usize, usize)>,
    holds: bool,
    pair: (usize, usize),
) -> Result<(), AllocError>
    ensures { IfOk result (λ _. pairs.new.items ≡ pairs.old.items ++ (if holds then pair ∷ [] else [])) }
{
    if holds {
        pairs.push(pair)?;
    }
    Ok(())
}

/// The pairs (i, j) of one class, for this j.
#[tactic(auto, using(crate::proofs::Rows::same_row))]
fn push_same(pairs: &mut Vec<(usize, usize)>, labels: &[u64], j: usize) -> Result<(), AllocError>
    requires { j < length labels.now }
    ensures { IfOk result (λ _. pairs.new.items ≡ pairs.old.items ++ filter (has_same labels.now) (row j j)) }
{
    for i in 0..j {
        push_if(pairs, labels[i] == labels[j], (i, j))?;
    }
    Ok(())
}

/// The pairs of one class.
#[tactic(auto, using(crate::proofs::Rows::next_row))]
pub fn same_pairs(alloc: Global, labels: &[u64]) -> Result<Vec<(usize, usize)>, AllocError>
    ensures { IfOk result (λ v. v.items ≡ filter (has_same labels.now) (pairs_below (length labels.now))) }
{
    let mut pairs = Vec::with_capacity(alloc, labels.len())?;
    for j in 0..labels.len() {
        push_same(&mut pairs, labels, j)?;
    }
    Ok(pairs)
}

/// The pairs (i, j) whose labels some difference joins, for this j.
#[tactic(auto, using(crate::proofs::Rows::difference_row))]
fn push_differing(
    pairs: &mut Vec<(usize, usize)>,
    near: &mut Vec<u64>,
    labels: &[u64],
    differences: &[(u64, u64)],
    j: usize,
) -> Result<(), AllocError>
    requires { j < length labels.now }
    ensures { IfOk result (λ _. pairs.new.items
        ≡ pairs.old.items ++ filter (has_difference labels.now differences.now) (row j j)) }
{
    fill_neighbours(near, differences, labels[j])?;
    for i in 0..j {
        push_if(pairs, has_label(near, labels[i]), (i, j))?;
    }
    Ok(())
}

/// The pairs of classes that some difference joins, by lists of neighbours: the labels may be any numbers.
#[tactic(auto, using(crate::proofs::Rows::next_row))]
pub fn far_pairs(
    alloc: Global,
    labels: &[u64],
    differences: &[(u64, u64)],
) -> Result<Vec<(usize, usize)>, AllocError>
    ensures { IfOk result (λ v. v.items ≡ different_pairs labels.now differences.now) }
{
    let mut pairs = Vec::with_capacity(alloc, differences.len())?;
    let mut near = Vec::with_capacity(alloc, labels.len())?;
    for j in 0..labels.len() {
        push_differing(&mut pairs, &mut near, labels, differences, j)?;
    }
    Ok(pairs)
}

/// Whether a label stands in the list.
fn has_label(labels: &[u64], label: u64) -> bool
    ensures { result ≡ list_any (λ c. nat_eq c label) labels.now }
{
    for other in labels {
        if *other == label {
            return true;
        }
    }
    false
}

/// Whether no lesser number has the label of this one.
#[tactic(auto, using(crate::proofs::Rows::any_next))]
fn is_first(labels: &[u64], i: usize) -> bool
    requires { i < length labels.now }
    ensures { result ≡ is_first_label labels.now i }
{
    let mut found = false;
    for j in 0..i {
        found = found || labels[j] == labels[i];
    }
    !found
}

fn is_cell(labels: &[u64], cells: &[u64], i: usize) -> bool
    requires { i < length labels.now }
    ensures { result ≡ is_cell_label labels.now cells.now i }
{
    has_label(cells, labels[i]) && is_first(labels, i)
}

fn push_number_if(numbers: &mut Vec<usize>, holds: bool, number: usize) -> Result<(), AllocError>
    ensures { IfOk result (λ _. numbers.new.items ≡ numbers.old.items ++ (if holds then number ∷ [] else [])) }
{
    if holds {
        numbers.push(number)?;
    }
    Ok(())
}

/// The least numbers of the classes that are cells.
#[tactic(auto, using(crate::proofs::Rows::cell_next))]
pub fn cell_numbers(alloc: Global, labels: &[u64], cells: &[u64]) -> Result<Vec<usize>, AllocError>
    ensures { IfOk result (λ v. v.items ≡ filter (is_cell_label labels.now cells.now) (upto (length labels.now))) }
{
    let mut numbers = Vec::new(alloc);
    for i in 0..labels.len() {
        push_number_if(&mut numbers, is_cell(labels, cells, i), i)?;
    }
    Ok(numbers)
}

/// The label of a number; 0 past the end.
pub fn label_at(labels: &[u64], i: usize) -> u64
    ensures { result ≡ slice_index labels.now i }
{
    match labels.get(i) {
        None => 0,
        Some(label) => *label,
    }
}

/// The class of one label becomes that of another; nothing is to be done where they are one.
#[tactic(auto, using(crate::proofs::Rows::joined_alone))]
fn join(labels: &mut [u64], old: u64, new: u64)
    ensures { labels.new ≡ map (relabelled old new) labels.old }
{
    if old != new {
        relabel(labels, old, new);
    }
}

/// The class of one number joins that of another.
fn join_two(labels: &mut Vec<u64>, left: usize, right: usize)
    ensures { labels.new.items ≡ map (relabelled (slice_index labels.old.items right)
        (slice_index labels.old.items left)) labels.old.items }
{
    let old = label_at(labels.as_slice(), right);
    let new = label_at(labels.as_slice(), left);
    join(labels.as_mut_slice(), old, new);
}

/// The labels after equations between numbers.
pub fn join_pairs(labels: &mut Vec<u64>, equations: &[(usize, usize)])
    ensures { labels.new.items ≡ joined_labels labels.old.items equations.now }
{
    for equation in equations {
        let (left, right) = *equation;
        join_two(labels, left, right);
    }
}

/// The labels after the equations of a mask.
pub fn join_masked(labels: &mut Vec<u64>, mask: u64)
    requires { mask < 2 ^ 55 }
    ensures { labels.new.items ≡ joined_labels labels.old.items (pairs_in mask) }
{
    let mut rest = mask;
    while rest != 0 {
        let ((left, right), others) = first_pair(rest);
        join_two(labels, left, right);
        rest = others;
    }
}

/// The labels after the equations of a mask between the numbers at some places.
pub fn join_masked_places(labels: &mut Vec<u64>, places: &[usize], mask: u64)
    requires { mask < 2 ^ 55 }
    ensures { labels.new.items ≡ joined_labels labels.old.items (pairs_at places.now (pairs_in mask)) }
{
    let mut rest = mask;
    while rest != 0 {
        let ((left, right), others) = first_pair(rest);
        join_two(labels, place_at(places, left), place_at(places, right));
        rest = others;
    }
}

/// The labels after equations between the numbers at some places.
pub fn join_placed(labels: &mut Vec<u64>, places: &[usize], equations: &[(usize, usize)])
    ensures { labels.new.items ≡ joined_labels labels.old.items (pairs_at places.now equations.now) }
{
    for equation in equations {
        let (left, right) = *equation;
        join_two(labels, place_at(places, left), place_at(places, right));
    }
}

/// Sets labels to others after equations between numbers, and between the numbers at some places.
#[tactic(auto, using(crate::proofs::Rows::joined_append))]
pub fn join_both(
    labels: &mut Vec<u64>,
    start: &[u64],
    own: &PairSet,
    places: &[usize],
    others: &PairSet,
) -> Result<(), AllocError>
    ensures { IfOk result (λ _. labels.new.items ≡ joined_labels start.now (own.now ++ pairs_at places.now others.now)) }
{
    labels.clear();
    labels.extend_from_slice(start)?;
    own.join(labels);
    others.join_at(labels, places);
    Ok(())
}

/// Whether no difference joins a label with itself.
pub fn are_apart(differences: &[(u64, u64)]) -> bool
    ensures { IsTrue result ↔ Each (λ q. q.0 ≢ q.1) differences.now }
{
    for difference in differences {
        let (left, right) = *difference;
        if left == right {
            return false;
        }
    }
    true
}

/// Sets a list to the labels of some numbers.
pub fn fill_labels(out: &mut Vec<u64>, labels: &[u64], numbers: &[usize]) -> Result<(), AllocError>
    ensures { IfOk result (λ _. out.new.items ≡ labels_at labels.now numbers.now) }
{
    out.clear();
    for number in numbers {
        out.push(label_at(labels, *number))?;
    }
    Ok(())
}

/// Whether the numbers are the first ones, in their order.
#[tactic(auto, using(crate::proofs::Rows::first_next))]
pub fn are_first(numbers: &[usize]) -> bool
    ensures { IsTrue result → numbers.now ≡ upto (length numbers.now) }
{
    for (i, number) in numbers.iter().enumerate() {
        if *number != i {
            return false;
        }
    }
    true
}

/// The labels of the pairs of a mask.
pub fn push_masked_pairs(
    out: &mut Vec<(u64, u64)>,
    labels: &[u64],
    mask: u64,
) -> Result<(), AllocError>
    requires { mask < 2 ^ 55 }
    ensures { IfOk result (λ _. out.new.items ≡ out.old.items ++ label_pairs labels.now (pairs_in mask)) }
{
    let mut rest = mask;
    while rest != 0 {
        let ((left, right), others) = first_pair(rest);
        out.push((label_at(labels, left), label_at(labels, right)))?;
        rest = others;
    }
    Ok(())
}

/// The labels of the pairs of a mask, at some places.
pub fn push_masked_places(
    out: &mut Vec<(u64, u64)>,
    labels: &[u64],
    places: &[usize],
    mask: u64,
) -> Result<(), AllocError>
    requires { mask < 2 ^ 55 }
    ensures { IfOk result (λ _. out.new.items
        ≡ out.old.items ++ label_pairs labels.now (pairs_at places.now (pairs_in mask))) }
{
    let mut rest = mask;
    while rest != 0 {
        let ((left, right), others) = first_pair(rest);
        out.push((
            label_at(labels, place_at(places, left)),
            label_at(labels, place_at(places, right)),
        ))?;
        rest = others;
    }
    Ok(())
}

/// The labels of some pairs of numbers.
pub fn push_label_pairs(
    out: &mut Vec<(u64, u64)>,
    labels: &[u64],
    pairs: &[(usize, usize)],
) -> Result<(), AllocError>
    ensures { IfOk result (λ _. out.new.items ≡ out.old.items ++ label_pairs labels.now pairs.now) }
{
    for pair in pairs {
        let (left, right) = *pair;
        out.push((label_at(labels, left), label_at(labels, right)))?;
    }
    Ok(())
}

/// Each cell with nil.
fn push_against(out: &mut Vec<(u64, u64)>, cells: &[u64], nil: u64) -> Result<(), AllocError>
    ensures { IfOk result (λ _. out.new.items ≡ out.old.items ++ map (λ c. (c, nil)) cells.now) }
{
    for cell in cells {
        out.push((*cell, nil))?;
    }
    Ok(())
}

/// One cell with each of some others.
fn push_with(out: &mut Vec<(u64, u64)>, cell: u64, others: &[u64]) -> Result<(), AllocError>
    ensures { IfOk result (λ _. out.new.items ≡ out.old.items ++ map (λ u. (cell, u)) others.now) }
{
    for other in others {
        out.push((cell, *other))?;
    }
    Ok(())
}

/// Each two cells.
fn push_each_two(out: &mut Vec<(u64, u64)>, cells: &[u64]) -> Result<(), AllocError>
    ensures { IfOk result (λ _. out.new.items ≡ out.old.items ++ each_two cells.now) }
{
    for i in 0..cells.len() {
        push_with(out, cells[i], &cells[i + 1..])?;
    }
    Ok(())
}

fn place_at(places: &[usize], i: usize) -> usize
    ensures { result ≡ slice_index places.now i }
{
    match places.get(i) {
        None => 0,
        Some(place) => *place,
    }
}

/// The labels of some pairs of numbers at some places.
pub fn push_placed_pairs(
    out: &mut Vec<(u64, u64)>,
    labels: &[u64],
    places: &[usize],
    pairs: &[(usize, usize)],
) -> Result<(), AllocError>
    ensures { IfOk result (λ _. out.new.items
        ≡ out.old.items ++ label_pairs labels.now (pairs_at places.now pairs.now)) }
{
    for pair in pairs {
        let (left, right) = *pair;
        out.push((
            label_at(labels, place_at(places, left)),
            label_at(labels, place_at(places, right)),
        ))?;
    }
    Ok(())
}

/// Sets a list to all differences of labels: the stated ones, of numbers and of the numbers at some places, and those of
/// the cells.
pub fn fill_differences(
    out: &mut Vec<(u64, u64)>,
    labels: &[u64],
    own: &PairSet,
    places: &[usize],
    others: &PairSet,
    cells: &[u64],
) -> Result<(), AllocError>
    ensures { IfOk result (λ _. out.new.items ≡ label_pairs labels.now (own.now ++ pairs_at places.now others.now)
        ++ cell_pairs (slice_index labels.now 0) cells.now) }
{
    out.clear();
    own.push_labels(out, labels)?;
    others.push_labels_at(out, labels, places)?;
    push_against(out, cells, label_at(labels, 0))?;
    push_each_two(out, cells)?;
    Ok(())
}

/// Sets a list to some numbers, and others at some places.
pub fn fill_numbers(
    out: &mut Vec<usize>,
    own: &[usize],
    places: &[usize],
    others: &[usize],
) -> Result<(), AllocError>
    ensures { IfOk result (λ _. out.new.items ≡ own.now ++ numbers_at places.now others.now) }
{
    out.clear();
    out.extend_from_slice(own)?;
    for number in others {
        out.push(place_at(places, *number))?;
    }
    Ok(())
}
