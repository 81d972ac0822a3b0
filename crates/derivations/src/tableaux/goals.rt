// Goals and nodes of a partial derivation. The open goals stand on a stack, the next one on top.
ghost use Rattle.std.specs.Prelude.{◌≡◌, ◌<◌, ◌+◌, ◌++◌, ◌&&◌, ◌||◌, ◌==◌, reverse, length, nat_lt, nat_le, OnOk};
ghost use Rattle.derivations.specs.Tableau.{goals_of, root_goal};
ghost use Rattle.derivations.specs.Goals.{begins_with, others_of};

use cyc_basics::memory::OutOfMemory;
use logics::{Subgoal, TracePairs};
use std::alloc::Global;

/// A premise for which a node is to be made: the one at a place of the node `parent`. The first goal has depth 1, and a
/// premise is one deeper than what it is a premise of.
#[derive(Drop)]
pub struct OpenGoal<J> {
    pub parent: u32,
    pub place: u32,
    pub depth: u32,
    pub premise: Subgoal<J>,
}

/// A node: the goal that it was made for, and why it holds.
#[derive(Drop)]
pub struct MadeNode<J, R> {
    pub goal: OpenGoal<J>,
    pub reason: R,
}

/// The goal that a derivation begins with.
pub fn first_goal<J>(alloc: Global, judgement: J) -> OpenGoal<J>
    ensures { result ≡ root_goal judgement }
{
    let pairs = TracePairs::from_vec(Vec::new(alloc));
    let premise = Subgoal { judgement, pairs };
    OpenGoal {
        parent: 0,
        place: 0,
        depth: 1,
        premise,
    }
}

/// Whether premises fit at a goal of some depth, beside the nodes made and the other goals: they need a depth below the
/// bound, and all together are at most the limit.
pub fn has_room(
    limit: usize,
    bound: u32,
    depth: u32,
    made: usize,
    others: usize,
    count: usize,
) -> bool
    requires { made + others < limit }
    ensures fits { result ≡ ((count == 0 || nat_lt depth bound) && nat_le (made + 1 + (count + others)) limit) }
{
    if count > 0 && depth >= bound {
        return false;
    }
    count <= limit - 1 - made - others
}

/// Puts the premises of a node at this depth on the stack, the first one on top.
pub fn push_goals<J: Drop>(
    goals: &mut Vec<OpenGoal<J>>,
    node: u32,
    depth: u32,
    mut premises: Vec<Subgoal<J>>,
) -> Result<(), OutOfMemory>
    requires depth { 0 < length premises.items → depth < 4294967295 }
    requires few { length premises.items < 4294967296 }
    ensures { OnOk result (reverse goals.new.items
        ≡ goals_of node (depth + 1) 0 premises.items ++ reverse goals.old.items) }
{
    while let Some(premise) = premises.pop() {
        goals.push(OpenGoal {
            parent: node,
            place: premises.len() as u32,
            depth: depth + 1,
            premise,
        })?;
    }
    Ok(())
}

/// Takes the next goals off the stack that are premises of the node.
pub fn drop_goals<J: Drop>(goals: &mut Vec<OpenGoal<J>>, node: u32)
    ensures { reverse goals.new.items ≡ others_of node (reverse goals.old.items) }
{
    while is_next(goals, node) {
        let _ = goals.pop();
    }
}

/// Whether the next goal is a premise of the node.
fn is_next<J>(goals: &[OpenGoal<J>], node: u32) -> bool
    ensures { result ≡ begins_with node (reverse goals.now) }
{
    match goals.last() {
        None => false,
        Some(goal) => goal.parent == node,
    }
}
