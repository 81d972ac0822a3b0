// The moves for each purpose.
use crate::far_proofs::contradict;
use crate::growing::{Growth, grow};
use crate::opening::{open, prepare_open};
use crate::purposes::{Goal, Moved, Purpose};
use crate::several::several;
use crate::wholes::whole;
use cyc_basics::memory::OutOfMemory;
use seek_trees::{Stop, Work};
use std::alloc::Global;

/// The purpose where the antecedent is in form.
fn ready(purpose: &Purpose) -> Result<Purpose, OutOfMemory> {
    let is_ready = true;
    match purpose {
        Purpose::Grow {
            companions,
            fuel,
            ..
        } => Ok(Purpose::Grow {
            companions: companions.clone()?,
            fuel: *fuel,
            is_ready,
        }),
        Purpose::Contradict { .. } => Ok(Purpose::Contradict { is_ready }),
        Purpose::Whole { fuel, .. } => Ok(Purpose::Whole {
            fuel: *fuel,
            is_ready,
        }),
        Purpose::Open { fuel, .. } => Ok(Purpose::Open {
            fuel: *fuel,
            is_ready,
        }),
        Purpose::Several { fuel, .. } => Ok(Purpose::Several {
            fuel: *fuel,
            is_ready,
        }),
    }
}

/// The goal that is left when the antecedent is in form, if one is.
fn prepared(alloc: Global, left: Option<u32>, purpose: &Purpose) -> Moved {
    let mut goals = Vec::new(alloc);
    if let Some(node) = left {
        let purpose = ready(purpose)?;
        goals.push(Goal { node, purpose })?;
    }
    Ok(Some(goals))
}

fn prepare(work: &mut Work<'_>, node: u32, purpose: &Purpose) -> Moved {
    let alloc = work.setting.alloc;
    match purpose {
        Purpose::Grow { .. } => {
            let left = work.normal(node)?;
            prepared(alloc, left, purpose)
        }
        Purpose::Contradict { .. } if node == 0 => prepared(alloc, Some(node), purpose),
        Purpose::Contradict { .. } => {
            let left = work.normal(node)?;
            prepared(alloc, left, purpose)
        }
        Purpose::Whole { .. } | Purpose::Several { .. } => {
            let left = work.saturate(node)?;
            prepared(alloc, left, purpose)
        }
        Purpose::Open { fuel, .. } => prepare_open(work, node, *fuel),
    }
}

fn is_ready(purpose: &Purpose) -> bool {
    match purpose {
        Purpose::Grow { is_ready, .. } => *is_ready,
        Purpose::Contradict { is_ready } => *is_ready,
        Purpose::Whole { is_ready, .. } => *is_ready,
        Purpose::Open { is_ready, .. } => *is_ready,
        Purpose::Several { is_ready, .. } => *is_ready,
    }
}

/// Makes a move at a node, counted from 0.
pub fn attempt(work: &mut Work<'_>, node: u32, purpose: &Purpose, number: u32) -> Moved {
    if !is_ready(purpose) {
        return if number == 0 {
            prepare(work, node, purpose)
        } else {
            Ok(None)
        };
    }
    match purpose {
        Purpose::Grow {
            companions,
            fuel,
            ..
        } => {
            let growth = Growth {
                node,
                companions,
                fuel: *fuel,
            };
            grow(work, growth, number)
        }
        Purpose::Contradict { .. } => contradict(work, node, number),
        Purpose::Whole { fuel, .. } => whole(work, node, *fuel, number),
        Purpose::Open { fuel, .. } => open(work, node, *fuel, number),
        Purpose::Several { fuel, .. } => several(work, node, *fuel, number),
    }
}

/// No goals.
pub fn closed(alloc: Global) -> Moved {
    Ok(Some(Vec::new(alloc)))
}

/// One goal.
pub fn only(alloc: Global, node: u32, purpose: Purpose) -> Moved {
    let mut goals = Vec::new(alloc);
    goals.push(Goal { node, purpose })?;
    Ok(Some(goals))
}

/// A move that closes its node or fails.
pub fn closed_by(alloc: Global, outcome: Result<(), Stop>) -> Moved {
    outcome?;
    closed(alloc)
}
