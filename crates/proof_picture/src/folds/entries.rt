//! How the nodes of a picture are entered.
ghost use Rattle.std.specs.Prelude.{◌≡◌, IfOk, map};
ghost use Rattle.proof_picture.specs.Entries.{enter as entry_added, enter_all, enter_boxes, entries_in, entry_by};
ghost use Rattle.proof_picture.specs.Entries.{is_once as once, more, no_entries, once_in, root_in};
ghost use Rattle.proof_picture.specs.Arrows.{drawn_of};
ghost use Rattle.proof_picture.specs.Pictures.{box_of};

use crate::{Arrow, NodeBox};
use cyc_basics::memory::OutOfMemory;
use std::alloc::Global;

/// How many edges lead to a node.
#[derive(Clone, Copy)]
pub enum Entered {
    Never,
    Once,
    Again,
}

/// How many edges lead to a node, and whether one of them leads to a premise, as all do but links.
#[derive(Clone, Copy)]
pub struct Entry {
    pub entered: Entered,
    pub is_premise: bool,
}

fn one_more(entered: Entered) -> Entered
    ensures { result ≡ more entered }
{
    match entered {
        Entered::Never => Entered::Once,
        Entered::Once => Entered::Again,
        Entered::Again => Entered::Again,
    }
}

fn entered_by(entry: Entry, arrow: &Arrow) -> Entry
    ensures { result ≡ entry_by entry (drawn_of arrow.now) }
{
    Entry {
        entered: one_more(entry.entered),
        is_premise: entry.is_premise || !arrow.is_link,
    }
}

fn enter(entries: &mut [Entry], arrow: &Arrow)
    ensures { entries.new ≡ entry_added entries.old (drawn_of arrow.now) }
{
    let target = arrow.target as usize;
    if let Some(entry) = entries.get(target) {
        let next = entered_by(*entry, arrow);
        entries[target] = next;
    }
}

fn enter_arrows(entries: &mut [Entry], arrows: &[Arrow])
    ensures { entries.new ≡ enter_all entries.old (map drawn_of arrows.now) }
{
    for arrow in arrows {
        enter(entries, arrow);
    }
}

fn enter_all_boxes(entries: &mut [Entry], boxes: &[NodeBox])
    ensures { entries.new ≡ enter_boxes entries.old (map box_of boxes.now) }
{
    for node in boxes {
        enter_arrows(entries, node.arrows.as_slice());
    }
}

fn blank(alloc: Global, boxes: &[NodeBox]) -> Result<Vec<Entry>, OutOfMemory>
    ensures { IfOk result (λ v. v.items ≡ no_entries (map box_of boxes.now)) }
{
    let mut entries = Vec::new(alloc);
    for _node in boxes {
        entries.push(Entry {
            entered: Entered::Never,
            is_premise: false,
        })?;
    }
    Ok(entries)
}

/// How each node is entered.
pub fn entries_of(alloc: Global, boxes: &[NodeBox]) -> Result<Vec<Entry>, OutOfMemory>
    ensures { IfOk result (λ v. v.items ≡ entries_in (map box_of boxes.now)) }
{
    let mut entries = blank(alloc, boxes)?;
    enter_all_boxes(entries.as_mut_slice(), boxes);
    Ok(entries)
}

fn is_once(entered: Entered) -> bool
    ensures { result ≡ once entered }
{
    match entered {
        Entered::Never => false,
        Entered::Once => true,
        Entered::Again => false,
    }
}

/// Whether exactly one edge leads to the node.
pub fn is_entered_once(entries: &[Entry], v: usize) -> bool
    ensures { result ≡ once_in entries.now v }
{
    match entries.get(v) {
        Some(entry) => is_once(entry.entered),
        None => false,
    }
}

/// Whether the node is no premise, so that a tree begins with it.
pub fn is_root(entries: &[Entry], v: usize) -> bool
    ensures { result ≡ root_in entries.now v }
{
    match entries.get(v) {
        Some(entry) => !entry.is_premise,
        None => false,
    }
}
