// The draft of a proof.
ghost use Rattle.std.specs.Prelude.{◌<◌};

use cyc_basics::memory::OutOfMemory;
use heap_formula::{Judgement, Pairs, Premise, Reason, Rule};
use std::alloc::Global;
use std::mem::swap;

/// The greatest number of nodes of a draft.
pub const MOST_DRAFT_NODES: usize = 3000;

/// An edge to a premise: its trace pairs, and its node as soon as it has one.
#[derive(Drop)]
pub struct DraftEdge {
    pub pairs: Pairs,
    pub target: Option<u32>,
}

/// A node of a draft. It is open as long as it has no reason. `parent` is the node of which it is a premise.
#[derive(Drop)]
pub struct DraftNode {
    pub judgement: Judgement,
    pub reason: Option<Reason>,
    pub edges: Vec<DraftEdge>,
    pub parent: Option<u32>,
}

/// The draft of a proof: nodes, of which the first has the goal. They grow at the end, and are cut off there.
#[derive(Drop)]
pub struct Draft {
    pub nodes: Vec<DraftNode>,
    stuck: Option<Judgement>,
    depth: usize,
    alloc: Global,
}

impl DraftNode {
    /// Whether links may lead to the node: it unfolds or executes.
    pub fn is_companion(&self) -> bool {
        matches!(
            &self.reason,
            Some(Reason::Step(Rule::Unfold(_))) | Some(Reason::Step(Rule::Exec))
        )
    }
}

impl Draft {
    /// The draft of one open node.
    pub fn new(alloc: Global, goal: &Judgement) -> Result<Draft, OutOfMemory> {
        let root = DraftNode {
            judgement: goal.clone()?,
            reason: None,
            edges: Vec::new(alloc),
            parent: None,
        };
        let nodes = vec![in alloc; root]?;
        Ok(Draft {
            nodes,
            stuck: None,
            depth: 0,
            alloc,
        })
    }

    /// The deepest judgement of a program on which the search gave up.
    pub fn take_stuck(&mut self) -> Option<Judgement> {
        let mut stuck = None;
        swap(&mut self.stuck, &mut stuck);
        stuck
    }

    /// Keeps a node's judgement on which the search gives up below so many others, if it is one of a program and the
    /// deepest so far.
    pub fn give_up(&mut self, node: u32, depth: usize) -> Result<(), OutOfMemory> {
        if depth <= self.depth {
            return Ok(());
        }
        let judgement = match self.nodes.get(node as usize) {
            Some(node) => node.judgement.clone()?,
            None => return Ok(()),
        };
        if matches!(judgement, Judgement::Term(_, _)) {
            self.stuck = Some(judgement);
            self.depth = depth;
        }
        Ok(())
    }

    /// How many nodes there are.
    pub fn len(&self) -> usize {
        self.nodes.len()
    }

    /// The node of this number, if there is one.
    pub fn node(&self, node: u32) -> Option<&DraftNode> {
        self.nodes.get(node as usize)
    }

    /// Puts an open node at the end, unless there is no room.
    pub fn push(&mut self, judgement: Judgement, parent: u32) -> Result<Option<u32>, OutOfMemory> {
        let number = self.nodes.len();
        if number >= MOST_DRAFT_NODES {
            drop(judgement);
            return Ok(None);
        }
        self.nodes.push(DraftNode {
            judgement,
            reason: None,
            edges: Vec::new(self.alloc),
            parent: Some(parent),
        })?;
        Ok(Some(number as u32))
    }

    /// Gives a node this reason, or none, and these edges; what it had before goes.
    fn settle(&mut self, node: u32, mut reason: Option<Reason>, mut edges: Vec<DraftEdge>) {
        if let Some(node) = self.nodes.get_mut(node as usize) {
            swap(&mut node.reason, &mut reason);
            swap(&mut node.edges, &mut edges);
        }
        drop(reason);
    }

    /// Gives a node a reason and edges for its premises.
    pub fn close(&mut self, node: u32, reason: Reason, edges: Vec<DraftEdge>) {
        self.settle(node, Some(reason), edges);
    }

    /// Gives a node a rule as its reason, and edges to premises that have no nodes yet.
    pub fn close_by_rule(
        &mut self,
        node: u32,
        rule: &Rule,
        premises: &[Premise],
    ) -> Result<(), OutOfMemory> {
        self.close(node, Reason::Step(rule.clone()?), Vec::new(self.alloc));
        self.push_edges(node, premises, None)
    }

    /// Gives a node edges to premises that have this node, or none yet.
    pub(crate) fn push_edges(
        &mut self,
        node: u32,
        premises: &[Premise],
        target: Option<u32>,
    ) -> Result<(), OutOfMemory> {
        let Some(node) = self.nodes.get_mut(node as usize) else {
            return Ok(());
        };
        for premise in premises {
            let pairs = premise.pairs.clone()?;
            node.edges.push(DraftEdge { pairs, target })?;
        }
        Ok(())
    }

    /// Lets the edge of a node lead to another.
    pub fn lead(&mut self, node: u32, place: usize, target: u32) {
        if let Some(node) = self.nodes.get_mut(node as usize) {
            if let Some(edge) = node.edges.get_mut(place) {
                edge.target = Some(target);
            }
        }
    }

    /// Opens a node again, and cuts off all nodes from a number on.
    pub fn reopen(&mut self, node: u32, kept: usize) {
        self.nodes.truncate(kept);
        self.settle(node, None, Vec::new(self.alloc));
    }
}
