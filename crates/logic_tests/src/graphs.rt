// Graphs that tests of several crates are given.
use std::alloc::Global;
use trace_pairs::{Edge, Node, OutOfMemory, TraceGraph};

/// For each edge of a node its target and its pairs.
pub type Edges = &'static [(u32, &'static [(u8, u8, bool)])];

/// For each node its positions and its edges.
pub type Nodes = &'static [(&'static [u8], Edges)];

fn node_of(alloc: Global, positions: &[u8], edges: Edges) -> Result<Node, OutOfMemory> {
    let mut list = Vec::new(alloc);
    for (target, pairs) in edges {
        list.push(Edge::new(*target, pairs.to_vec(alloc)?))?;
    }
    Ok(Node::new(positions.to_vec(alloc)?, list))
}

/// The graph of these nodes.
pub fn graph_of(alloc: Global, nodes: Nodes) -> Result<TraceGraph, OutOfMemory> {
    let mut graph = TraceGraph::new(alloc);
    for (positions, edges) in nodes {
        graph.push(node_of(alloc, positions, edges)?)?;
    }
    Ok(graph)
}
