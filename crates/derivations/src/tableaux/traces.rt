// Trace graphs that grow by a node for the next goal, and are cut back.
ghost use Rattle.std.specs.Prelude.{◌≡◌, ◌<◌, length, IfOk, OnOk};
ghost use Rattle.buchi_inclusion.specs.Leaf.{add_edge, with_leaf};
ghost use Rattle.derivations.specs.Tableau.{linked};
ghost use Rattle.derivations.specs.Leaves.{drop_edge, without_leaf};

use cyc_basics::memory::OutOfMemory;
use std::alloc::Global;
use std::marker::Model;
use trace_pairs::{Edge, Node, TraceGraph};

#[derive(Drop)]
struct GrowingNode {
    positions: Vec<u8>,
    edges: Vec<Edge>,
}

impl Model for GrowingNode {
    ghost use Rattle.trace_pairs.specs.Graph.{Node as NodeValue};

    ghost Value = { NodeValue };

    ghost view = { λ n. record { positions = n.positions.items; edges = n.edges.items } };
}

/// A trace graph of which each node after node 0 is a leaf at first.
#[derive(Drop)]
pub struct GrowingTraces {
    nodes: Vec<GrowingNode>,
}

impl Model for GrowingTraces {
    ghost use Rattle.std.specs.Prelude.{List};
    ghost use Rattle.trace_pairs.specs.Graph.{Node as NodeValue};

    ghost Value = { List NodeValue };

    ghost view = { λ g. g.nodes.items };
}

fn copied_pairs(alloc: Global, pairs: &[(u8, u8, bool)]) -> Result<Vec<(u8, u8, bool)>, OutOfMemory>
    ensures { IfOk result (λ v. v.items ≡ pairs.now) }
{
    let mut copies = Vec::new(alloc);
    for pair in pairs {
        copies.push(*pair)?;
    }
    Ok(copies)
}

fn copied_edges(alloc: Global, edges: &[Edge]) -> Result<Vec<Edge>, OutOfMemory>
    ensures { IfOk result (λ v. v.items ≡ edges.now) }
{
    let mut copies = Vec::new(alloc);
    for edge in edges {
        copies.push(Edge::new(edge.target(), copied_pairs(alloc, edge.pairs())?))?;
    }
    Ok(copies)
}

fn copied_positions(alloc: Global, positions: &[u8]) -> Result<Vec<u8>, OutOfMemory>
    ensures { IfOk result (λ v. v.items ≡ positions.now) }
{
    let mut copies = Vec::new(alloc);
    for position in positions {
        copies.push(*position)?;
    }
    Ok(copies)
}

impl GrowingNode {
    ghost use Rattle.std.specs.Prelude.{[]};
    ghost use Rattle.derivations.specs.Leaves.{with_edge, without_edge};

    fn new(alloc: Global, positions: Vec<u8>) -> GrowingNode
        ensures { result ≡ record { positions = positions.items; edges = [] } }
    {
        let edges = Vec::new(alloc);
        GrowingNode { positions, edges }
    }

    fn push(&mut self, edge: Edge) -> Result<(), OutOfMemory>
        ensures { OnOk result (self.new ≡ with_edge edge self.old) }
    {
        self.edges.push(edge)?;
        Ok(())
    }

    fn pop(&mut self)
        ensures { self.new ≡ without_edge self.old }
    {
        let _ = self.edges.pop();
    }

    fn copied(&self, alloc: Global) -> Result<Node, OutOfMemory>
        ensures { IfOk result (λ n. n ≡ self.now) }
    {
        let positions = copied_positions(alloc, &self.positions)?;
        let edges = copied_edges(alloc, &self.edges)?;
        Ok(Node::new(positions, edges))
    }
}

impl GrowingTraces {
    ghost use Rattle.std.specs.Prelude.{[]};

    /// The graph without a node.
    pub fn new(alloc: Global) -> GrowingTraces
        ensures { result ≡ [] }
    {
        GrowingTraces {
            nodes: Vec::new(alloc),
        }
    }

    /// Appends a node with these positions, to which the node `parent`, if there is one, gets an edge with these pairs.
    /// A link's node gets the edge to where it leads.
    pub fn add_node(
        &mut self,
        alloc: Global,
        parent: u32,
        pairs: &[(u8, u8, bool)],
        positions: Vec<u8>,
        back: Option<Edge>,
    ) -> Result<(), OutOfMemory>
        requires { length self.old < 4294967296 }
        ensures { OnOk result (self.new
            ≡ linked (length self.old) (with_leaf self.old parent pairs.now positions.items) back) }
    {
        let target = self.nodes.len();
        let edge = Edge::new(target as u32, copied_pairs(alloc, pairs)?);
        self.push_edge(parent as usize, edge)?;
        self.nodes.push(GrowingNode::new(alloc, positions))?;
        if let Some(edge) = back {
            self.push_edge(target, edge)?;
        }
        Ok(())
    }

    /// Takes away the last node, and the last edge of the node `parent`.
    pub fn remove_node(&mut self, parent: u32)
        ensures { self.new ≡ without_leaf self.old parent }
    {
        let _ = self.nodes.pop();
        self.pop_edge(parent as usize);
    }

    /// Gives a node, if there is one, the edge as its last.
    fn push_edge(&mut self, node: usize, edge: Edge) -> Result<(), OutOfMemory>
        ensures { OnOk result (self.new ≡ add_edge node edge self.old) }
    {
        if node < self.nodes.len() {
            self.nodes[node].push(edge)?;
        }
        Ok(())
    }

    /// Takes away a node's last edge.
    fn pop_edge(&mut self, node: usize)
        ensures { self.new ≡ drop_edge node self.old }
    {
        if node < self.nodes.len() {
            self.nodes[node].pop();
        }
    }

    /// The graph, as it is now.
    pub fn graph(&self, alloc: Global) -> Result<TraceGraph, OutOfMemory>
        ensures { IfOk result (λ g. g ≡ self.now) }
    {
        let mut graph = TraceGraph::new(alloc);
        for node in &self.nodes {
            graph.push(node.copied(alloc)?)?;
        }
        Ok(graph)
    }
}
