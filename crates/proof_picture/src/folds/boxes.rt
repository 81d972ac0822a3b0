//! The boxes of a folded picture: a node, a closed subtree, or a chain.
ghost use Rattle.std.specs.Prelude.{◌≡◌, ◌++◌, IfOk, OnOk, map, slice_get};
ghost use Rattle.std.specs.Option.{option_copied};
ghost use Rattle.proof_picture.specs.Boxes.{by_count as shown_by, chain_at, closed_box, ended_box, link_text, shown_at};
ghost use Rattle.proof_picture.specs.Boxes.{uses as uses_one};
ghost use Rattle.proof_picture.specs.Shown.{shown_of};
ghost use Rattle.proof_picture.specs.Arrows.{drawn_of};
ghost use Rattle.proof_picture.specs.Pictures.{box_of};
ghost use Rattle.proof_picture.specs.Pieces.{piece_of};

use crate::folds::entries::{Entry, is_root};
use crate::folds::fates::{Fate, count_at, next_of};
use crate::folds::shown::ShownBox;
use crate::folds::texts::{add_judgement, add_line, add_reason};
use crate::{Arrow, Label, NodeBox, Piece};
use cyc_basics::memory::OutOfMemory;
use std::alloc::Global;
use std::collections::VecDeque;

/// Whether a bud uses a lemma: its companion is the root of another tree than the one that begins with `root`.
fn uses(entries: &[Entry], root: usize, arrows: &[Arrow]) -> bool
    ensures { result ≡ uses_one entries.now root (map drawn_of arrows.now) }
{
    match arrows {
        [] => false,
        [arrow, ..] => {
            let target = arrow.target as usize;
            arrow.is_link && is_root(entries, target) && target != root
        }
    }
}

fn copied_arrow(alloc: Global, arrow: &Arrow) -> Result<Arrow, OutOfMemory>
    ensures { IfOk result (λ a. drawn_of a ≡ drawn_of arrow.now) }
{
    let pairs = arrow.pairs.clone()?;
    Ok(Arrow {
        place: arrow.place,
        target: arrow.target,
        is_link: arrow.is_link,
        is_refused: arrow.is_refused,
        pairs,
    })
}

fn copied_arrows(alloc: Global, arrows: &[Arrow]) -> Result<Vec<Arrow>, OutOfMemory>
    ensures { IfOk result (λ v. map drawn_of v.items ≡ map drawn_of arrows.now) }
{
    let mut copy = Vec::new(alloc);
    for arrow in arrows {
        copy.push(copied_arrow(alloc, arrow)?)?;
    }
    Ok(copy)
}

/// A closed subtree of more than one node.
fn closed(alloc: Global, v: u32, count: u32, node: &NodeBox) -> Result<ShownBox, OutOfMemory>
    ensures { IfOk result (λ s. shown_of s ≡ closed_box v count (box_of node.now)) }
{
    let mut text = Vec::new(alloc);
    add_judgement(alloc, &mut text, node.label.pieces.as_slice())?;
    Ok(ShownBox {
        first: v,
        last: v as usize,
        count: Some(count),
        uses_lemma: false,
        label: Label { pieces: text },
        fault: None,
        arrows: Vec::new(alloc),
    })
}

/// The box that began with node `v`, and ends with this one, which is node `at`.
fn ended(
    alloc: Global,
    entries: &[Entry],
    root: usize,
    v: u32,
    text: Vec<Piece>,
    at: usize,
    node: &NodeBox,
) -> Result<ShownBox, OutOfMemory>
    ensures { IfOk result (λ s. shown_of s
        ≡ ended_box entries.now root v (map piece_of text.items) at (box_of node.now)) }
{
    let mut text = text;
    add_reason(alloc, &mut text, true, node.label.pieces.as_slice())?;
    let arrows = copied_arrows(alloc, node.arrows.as_slice())?;
    Ok(ShownBox {
        first: v,
        last: at,
        count: None,
        uses_lemma: uses(entries, root, node.arrows.as_slice()),
        label: Label { pieces: text },
        fault: node.fault,
        arrows,
    })
}

/// Adds the text of a node in a chain, before the last: of the first the whole, of the others the reason.
fn add_link(
    alloc: Global,
    text: &mut Vec<Piece>,
    v: usize,
    at: usize,
    node: &NodeBox,
) -> Result<(), OutOfMemory>
    ensures { OnOk result (map piece_of text.new.items
        ≡ map piece_of text.old.items ++ link_text v at (box_of node.now)) }
{
    add_reason(alloc, text, v == at, node.label.pieces.as_slice())?;
    add_line(text)
}

fn box_at(boxes: &[NodeBox], v: usize) -> Option<&NodeBox>
    ensures { option_copied result ≡ slice_get boxes.now v }
{
    match boxes.get(v) {
        Some(node) => Some(node),
        None => None,
    }
}

/// The box that begins with node `v`, and goes on as long as the next node is taken in.
fn chain(
    alloc: Global,
    boxes: &[NodeBox],
    entries: &[Entry],
    fates: &VecDeque<Fate>,
    root: usize,
    v: u32,
    first: &NodeBox,
) -> Result<ShownBox, OutOfMemory>
    ensures { IfOk result (λ s. shown_of s
        ≡ chain_at (map box_of boxes.now) entries.now fates.now.items root v (box_of first.now)) }
{
    let mut text = Vec::new(alloc);
    let mut at = v as usize;
    let mut node = first;
    for _more in boxes {
        let Some(next) = next_of(fates, at, node.arrows.as_slice()) else {
            return ended(alloc, entries, root, v, text, at, node);
        };
        let Some(behind) = box_at(boxes, next) else {
            return ended(alloc, entries, root, v, text, at, node);
        };
        add_link(alloc, &mut text, v as usize, at, node)?;
        at = next;
        node = behind;
    }
    ended(alloc, entries, root, v, text, at, node)
}

/// The box that begins with node `v`, in the tree that begins with node `root`.
pub fn shown(
    alloc: Global,
    boxes: &[NodeBox],
    entries: &[Entry],
    fates: &VecDeque<Fate>,
    root: usize,
    v: u32,
    node: &NodeBox,
) -> Result<ShownBox, OutOfMemory>
    ensures { IfOk result (λ s. shown_of s
        ≡ shown_at (map box_of boxes.now) entries.now fates.now.items root v (box_of node.now)) }
{
    match count_at(fates, v as usize) {
        Some(count) => {
            if count > 1 {
                closed(alloc, v, count, node)
            } else {
                chain(alloc, boxes, entries, fates, root, v, node)
            }
        }
        None => chain(alloc, boxes, entries, fates, root, v, node),
    }
}
