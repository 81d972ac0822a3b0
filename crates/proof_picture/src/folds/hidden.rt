//! Which nodes have no box of their own, since another takes them in.
ghost use Rattle.std.specs.Prelude.{◌≡◌, IfOk, map};
ghost use Rattle.proof_picture.specs.Hidden.{hidden_in, hide as flag_put, hide_all as flags_put};
ghost use Rattle.proof_picture.specs.Hidden.{hide_at as flags_put_at, is_hidden as is_flagged, none_hidden as no_flags};
ghost use Rattle.proof_picture.specs.Arrows.{drawn_of};
ghost use Rattle.proof_picture.specs.Pictures.{box_of};

use crate::folds::fates::{Fate, takes_in};
use crate::{Arrow, NodeBox};
use cyc_basics::memory::OutOfMemory;
use std::alloc::Global;
use std::collections::VecDeque;

fn none_hidden(alloc: Global, boxes: &[NodeBox]) -> Result<Vec<bool>, OutOfMemory>
    ensures { IfOk result (λ v. v.items ≡ no_flags (map box_of boxes.now)) }
{
    let mut flags = Vec::new(alloc);
    for _node in boxes {
        flags.push(false)?;
    }
    Ok(flags)
}

fn hide(flags: &mut [bool], arrow: &Arrow)
    ensures { flags.new ≡ flag_put flags.old (drawn_of arrow.now) }
{
    let target = arrow.target as usize;
    if target < flags.len() {
        flags[target] = true;
    }
}

fn hide_all(flags: &mut [bool], arrows: &[Arrow])
    ensures { flags.new ≡ flags_put flags.old (map drawn_of arrows.now) }
{
    for arrow in arrows {
        hide(flags, arrow);
    }
}

fn hide_at(flags: &mut [bool], fates: &VecDeque<Fate>, v: usize, node: &NodeBox)
    ensures { flags.new ≡ flags_put_at flags.old fates.now.items v (box_of node.now).arrows }
{
    let arrows = node.arrows.as_slice();
    if takes_in(fates, v, arrows) {
        hide_all(flags, arrows);
    }
}

/// Which nodes another box takes in.
pub fn hidden_nodes(
    alloc: Global,
    fates: &VecDeque<Fate>,
    boxes: &[NodeBox],
) -> Result<Vec<bool>, OutOfMemory>
    ensures { IfOk result (λ v. v.items ≡ hidden_in fates.now.items (map box_of boxes.now)) }
{
    let mut flags = none_hidden(alloc, boxes)?;
    for (v, node) in boxes.iter().enumerate() {
        hide_at(flags.as_mut_slice(), fates, v, node);
    }
    Ok(flags)
}

/// Whether another box takes the node in.
pub fn is_hidden(flags: &[bool], v: usize) -> bool
    ensures { result ≡ is_flagged flags.now v }
{
    match flags.get(v) {
        Some(flag) => *flag,
        None => false,
    }
}
