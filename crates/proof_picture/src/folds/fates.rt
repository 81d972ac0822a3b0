//! What may be folded at each node.
ghost use Rattle.std.specs.Prelude.{◌≡◌, ◌<◌, length, slice_get, IfOk, map};
ghost use Rattle.proof_picture.specs.Fates.{are_none as none_left, count_along, count_at as count_by, count_in, fate};
ghost use Rattle.proof_picture.specs.Fates.{fates_from, fault_from, follows as goes_over, is_calm as calm};
ghost use Rattle.proof_picture.specs.Fates.{is_single as single, leads_on as leads, next_of as next_by};
ghost use Rattle.proof_picture.specs.Fates.{takes_in as takes};
ghost use Rattle.proof_picture.specs.Arrows.{drawn_of};
ghost use Rattle.proof_picture.specs.Pictures.{box_of};

use crate::folds::entries::{Entry, is_entered_once};
use crate::{Arrow, NodeBox};
use cyc_basics::memory::OutOfMemory;
use std::alloc::Global;
use std::collections::VecDeque;

/// What may be folded at a node: whether it may be folded into the box before it; whether it has one premise, and may
/// be one of a chain; and the number of nodes of its subtree, where that is right and closed without a link, and
/// nothing else leads into it.
#[derive(Clone, Copy)]
pub struct Fate {
    pub is_free: bool,
    pub is_single: bool,
    pub count: Option<u32>,
}

/// The least node with a fault, or the number of nodes: those before it are right.
fn place_of_fault(boxes: &[NodeBox]) -> usize
    ensures { result ≡ fault_from 0 (map box_of boxes.now) }
{
    for (v, node) in boxes.iter().enumerate() {
        if node.fault.is_some() {
            return v;
        }
    }
    boxes.len()
}

fn is_calm(arrows: &[Arrow]) -> bool
    ensures { result ≡ calm (map drawn_of arrows.now) }
{
    for arrow in arrows {
        if arrow.is_refused {
            return false;
        }
    }
    true
}

fn are_none(arrows: &[Arrow]) -> bool
    ensures { result ≡ none_left (map drawn_of arrows.now) }
{
    match arrows {
        [] => true,
        [_, ..] => false,
    }
}

/// Whether the edge leads by no link to a node after `v`.
fn leads_on(arrow: &Arrow, v: usize) -> bool
    ensures { result ≡ leads (drawn_of arrow.now) v }
{
    !arrow.is_link && v < arrow.target as usize
}

/// Whether node `v` has one premise.
fn is_single(v: usize, arrows: &[Arrow]) -> bool
    ensures { result ≡ single v (map drawn_of arrows.now) }
{
    match arrows {
        [] => false,
        [arrow, others @ ..] => leads_on(arrow, v) && are_none(others),
    }
}

fn count_of(behind: &VecDeque<Fate>, v: usize, target: usize) -> Option<u32>
    ensures { result ≡ count_in behind.now.items v target }
{
    if target <= v {
        return None;
    }
    match behind.get(target - v - 1) {
        Some(fate) => fate.count,
        None => None,
    }
}

/// The number of nodes from node `v` on, where the subtrees of its premises are closed.
fn count_behind(
    entries: &[Entry],
    behind: &VecDeque<Fate>,
    v: usize,
    arrows: &[Arrow],
) -> Option<u32>
    ensures { result ≡ count_along entries.now behind.now.items v 1 (map drawn_of arrows.now) }
{
    let mut count = 1u32;
    for arrow in arrows {
        let target = arrow.target as usize;
        if !(leads_on(arrow, v) && is_entered_once(entries, target)) {
            return None;
        }
        match count_of(behind, v, target) {
            Some(more) => count = count.saturating_add(more),
            None => return None,
        }
    }
    Some(count)
}

fn fate_of(
    entries: &[Entry],
    place: usize,
    behind: &VecDeque<Fate>,
    v: usize,
    node: &NodeBox,
) -> Fate
    ensures { result ≡ fate entries.now place behind.now.items v (box_of node.now).arrows }
{
    let arrows = node.arrows.as_slice();
    if v < place && is_calm(arrows) {
        Fate {
            is_free: is_entered_once(entries, v),
            is_single: is_single(v, arrows),
            count: count_behind(entries, behind, v, arrows),
        }
    } else {
        Fate {
            is_free: false,
            is_single: false,
            count: None,
        }
    }
}

/// What may be folded at each node, from the last on.
pub fn fates_of(
    alloc: Global,
    entries: &[Entry],
    boxes: &[NodeBox],
) -> Result<VecDeque<Fate>, OutOfMemory>
    ensures { IfOk result (λ d. d.items
        ≡ fates_from entries.now (fault_from 0 (map box_of boxes.now)) 0 (map box_of boxes.now)) }
{
    let place = place_of_fault(boxes);
    let mut behind = VecDeque::new(alloc);
    for done in 0..boxes.len() {
        let v = boxes.len() - 1 - done;
        let fate = fate_of(entries, place, &behind, v, &boxes[v]);
        behind.push_front(fate)?;
    }
    Ok(behind)
}

fn fate_at(fates: &VecDeque<Fate>, v: usize) -> Option<Fate>
    ensures { result ≡ slice_get fates.now.items v }
{
    match fates.get(v) {
        Some(fate) => Some(*fate),
        None => None,
    }
}

fn follows(fate: Option<Fate>, next: Option<Fate>) -> bool
    ensures { result ≡ goes_over fate next }
{
    let Some(fate) = fate else {
        return false;
    };
    match next {
        Some(next) => { fate.is_single && fate.count.is_none() && next.is_free && next.is_single }
        None => false,
    }
}

/// The premise that the box of node `v` takes in, if it does.
pub fn next_of(fates: &VecDeque<Fate>, v: usize, arrows: &[Arrow]) -> Option<usize>
    ensures { result ≡ next_by fates.now.items v (map drawn_of arrows.now) }
{
    match arrows {
        [] => None,
        [arrow, ..] => {
            let target = arrow.target as usize;
            if follows(fate_at(fates, v), fate_at(fates, target)) {
                Some(target)
            } else {
                None
            }
        }
    }
}

/// The number of nodes of the closed subtree that begins with node `v`, if one does.
pub fn count_at(fates: &VecDeque<Fate>, v: usize) -> Option<u32>
    ensures { result ≡ count_by (slice_get fates.now.items v) }
{
    match fates.get(v) {
        Some(fate) => fate.count,
        None => None,
    }
}

/// Whether node `v` takes its premises into its box.
pub fn takes_in(fates: &VecDeque<Fate>, v: usize, arrows: &[Arrow]) -> bool
    ensures { result ≡ takes fates.now.items v (map drawn_of arrows.now) }
{
    count_at(fates, v).is_some() || next_of(fates, v, arrows).is_some()
}
