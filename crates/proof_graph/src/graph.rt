//! The graph, and the calls that change it.

ghost use Rattle.std.specs.Prelude.{IsTrue, ◌≡◌, ◌<◌, ◌≤◌, ◌↔◌, [], ◌∷◌, ◌++◌, Err, length, IfOk, OnOk, OnErr};
ghost use Rattle.trace_pairs.specs.Graph.{IsGraph};
ghost use Rattle.proof_graph.specs.Nodes.{open_node, with_reason, without_reason, with_premise, changed_at};
ghost use Rattle.proof_graph.specs.Nodes.{nodes_below, HasPremise, HasJudgement};
ghost use Rattle.proof_graph.specs.NodeViews.{IsViewed};
ghost use Rattle.proof_graph.specs.Traces.{trace_graph_of, HasJoints};

use crate::graph_nodes::{NodeView, StoredNode};
use crate::nodes::{GraphNode, PremisePairs};
use crate::traces::{traces_of, traces_with};
use bumpalo::Bump;
use cyc_basics::limits::MOST_NODES;
use cyc_basics::memory::OutOfMemory;
use heap_formula::{Judgement, Reason};
use std::alloc::{AllocError, Global};
use std::marker::Model;
use trace_pairs::TraceGraph;

/// Why a graph takes no further node: it has 20,000, or memory was refused.
#[derive(Clone, Copy, Debug, PartialEq, Eq)]
pub enum GraphFault {
    TooManyNodes,
    OutOfMemory,
}

/// The nodes of a proof under construction, numbered from 0 in the order in which they were pushed. At most 20,000.
/// Their judgements, reasons and trace pairs lie in the arena, which takes nothing back before it goes itself.
#[derive(Drop)]
pub struct Graph<'a> {
    nodes: Vec<StoredNode<'a>>,
    arena: &'a Bump,
    alloc: Global,
}

impl From<OutOfMemory> for GraphFault {
    ghost use Rattle.proof_graph.specs.declared.graph.GraphFault.TheVariants.{OutOfMemory as memory_wanted};

    ghost from_gives = { λ _ e. e ≡ memory_wanted };

    fn from(_error: OutOfMemory) -> GraphFault {
        GraphFault::OutOfMemory
    }
}

impl From<AllocError> for GraphFault {
    ghost use Rattle.proof_graph.specs.declared.graph.GraphFault.TheVariants.{OutOfMemory as memory_wanted};

    ghost from_gives = { λ _ e. e ≡ memory_wanted };

    fn from(_error: AllocError) -> GraphFault {
        GraphFault::OutOfMemory
    }
}

impl<'a> Model for Graph<'a> {
    ghost use Rattle.std.specs.Prelude.{List, length, ◌≤◌};
    ghost use Rattle.proof_graph.specs.declared.nodes.GraphNode.{GraphNode};
    ghost use Rattle.cyc_basics.specs.declared.limits.TheConstants.{MOST_NODES};

    ghost Value = { List GraphNode };

    ghost view = { λ g. g.nodes.items };

    ghost invariant = { λ g. length g.nodes.items ≤ MOST_NODES };
}

impl<'a> Graph<'a> {
    /// The graph without a node.
    pub fn new_in(alloc: Global, arena: &'a Bump) -> Graph<'a>
        ensures { result ≡ [] }
    {
        Graph {
            nodes: Vec::new(alloc),
            arena,
            alloc,
        }
    }

    /// How many nodes there are.
    pub fn len(&self) -> usize
        ensures value { result ≡ length self.now }
        ensures at_most { result ≤ MOST_NODES }
    {
        self.nodes.len()
    }

    /// Whether there is no node.
    pub fn is_empty(&self) -> bool
        ensures { IsTrue result ↔ (self.now ≡ []) }
    {
        self.nodes.is_empty()
    }

    /// Appends a node with a copy of the judgement and without a reason, and gives its number.
    pub fn push_node(&mut self, judgement: &Judgement) -> Result<u32, GraphFault>
        ensures number { IfOk result (λ number. number ≡ length self.old) }
        ensures appended { OnOk result (self.new ≡ self.old ++ open_node judgement.now ∷ []) }
        ensures unchanged { OnErr result (self.new ≡ self.old) }
        ensures too_many { (result ≡ Err GraphFault.TooManyNodes) ↔ (length self.old ≡ MOST_NODES) }
    {
        let number = self.nodes.len();
        if number >= MOST_NODES {
            return Err(GraphFault::TooManyNodes);
        }
        let node = StoredNode::open(self.alloc, self.arena, judgement)?;
        match self.nodes.push(node) {
            Ok(()) => Ok(number as u32),
            Err(_) => Err(GraphFault::OutOfMemory),
        }
    }

    /// Gives a node a copy of the reason in place of the one that it had, and premises with these pairs in place of
    /// its own. Their slots are empty; a link's one slot holds the link's target.
    pub fn set_reason(
        &mut self,
        node: u32,
        reason: &Reason,
        pairs: &PremisePairs,
    ) -> Result<(), OutOfMemory>
        requires { node < length self.old }
        ensures replaced { OnOk result (self.new ≡ changed_at (with_reason reason.now pairs.now) self.old node) }
        ensures unchanged { OnErr result (self.new ≡ self.old) }
    {
        let place = &mut self.nodes[node as usize];
        place.set_reason(self.alloc, self.arena, reason, pairs.as_slice())?;
        Ok(())
    }

    /// Takes a node's reason away, and its premises with it.
    pub fn clear_reason(&mut self, node: u32)
        requires { node < length self.old }
        ensures { self.new ≡ changed_at without_reason self.old node }
    {
        let place = &mut self.nodes[node as usize];
        place.clear_reason(self.alloc);
    }

    /// Puts the number of a node into slot `i` of a node's premises.
    pub fn set_premise(&mut self, node: u32, i: u32, child: u32) -> Result<(), OutOfMemory>
        requires slot { HasPremise self.old node i }
        requires child { child < length self.old }
        ensures filled { OnOk result (self.new ≡ changed_at (with_premise i child) self.old node) }
        ensures unchanged { OnErr result (self.new ≡ self.old) }
    {
        let place = &mut self.nodes[node as usize];
        place.set_premise(i as usize, child);
        Ok(())
    }

    /// Keeps the first `n` nodes, and empties each slot that named a later one. The arena keeps what the others took.
    pub fn truncate(&mut self, n: u32)
        ensures { self.new ≡ nodes_below n self.old }
    {
        self.nodes.truncate(n as usize);
        for node in self.nodes.iter_mut() {
            node.empty_from(n);
        }
    }

    /// The parts of a node.
    pub fn node(&self, i: u32) -> NodeView<'_>
        requires { i < length self.now }
        ensures { IsViewed self.now i result }
    {
        let node = &self.nodes[i as usize];
        node.parts()
    }

    /// A copy of a node's judgement.
    pub fn judgement(&self, i: u32) -> Result<Judgement, OutOfMemory>
        requires { i < length self.now }
        ensures { IfOk result (HasJudgement self.now i) }
    {
        let node = &self.nodes[i as usize];
        node.judgement(self.alloc)
    }

    /// The trace graph: for each node the positions of its judgement, and an edge for each slot that is filled, in
    /// order, with the pairs of that premise. The first node is node 0.
    pub fn trace_graph(&self) -> Result<TraceGraph, OutOfMemory>
        ensures value { IfOk result (λ g. g ≡ trace_graph_of self.now) }

        // So a caller whose pairs join predicate atoms may ask whether every lasso of the graph progresses.
        ensures in_order { IfOk result (λ g. HasJoints self.now → IsGraph g) }
    {
        traces_of(self.alloc, &self.nodes)
    }

    /// The trace graph that would be, had the node this reason with these pairs. The graph stays as it is, and the
    /// arena takes nothing.
    pub fn trace_graph_with(
        &self,
        node: u32,
        reason: &Reason,
        pairs: &PremisePairs,
    ) -> Result<TraceGraph, OutOfMemory>
        ensures { IfOk result (λ g. g
            ≡ trace_graph_of (changed_at (with_reason reason.now pairs.now) self.now node)) }
    {
        traces_with(
            self.alloc,
            &self.nodes,
            node as usize,
            reason,
            pairs.as_slice(),
        )
    }

    /// Copies of the nodes.
    pub fn copy_out(&self) -> Result<Vec<GraphNode>, OutOfMemory>
        ensures { IfOk result (λ v. v.items ≡ self.now) }
    {
        let mut copies = Vec::new(self.alloc);
        for node in self.nodes.iter() {
            copies.push(node.copy(self.alloc)?)?;
        }
        Ok(copies)
    }
}
