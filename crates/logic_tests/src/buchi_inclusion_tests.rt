//! Small graphs, worked by hand.
use crate::graphs::{Nodes, graph_of};
use buchi_inclusion::{Inclusion, included};
use cyc_basics::limits::MOST_POSITIONS;
use cyc_basics::memory::OutOfMemory;
use std::alloc::Global;
use std::test::Fail;
use trace_pairs::{Edge, Node, TraceGraph, is_graph, is_lasso, lasso_progresses};

/// What `included` answers. A counter has to be a lasso that doesn't progress.
fn answer_on(alloc: Global, graph: &TraceGraph, limit: u32) -> Result<&'static str, OutOfMemory> {
    if !is_graph(graph) {
        return Ok("no graph");
    }
    match included(alloc, graph, limit)? {
        Inclusion::Included => Ok("included"),
        Inclusion::TooManyStates => Ok("too many states"),
        Inclusion::Counter(lasso) => {
            if is_lasso(graph, &lasso) && !lasso_progresses(alloc, graph, &lasso)? {
                return Ok("counter");
            }
            Ok("no counter")
        }
    }
}

fn answer_of(alloc: Global, nodes: Nodes, limit: u32) -> Result<&'static str, OutOfMemory> {
    let graph = graph_of(alloc, nodes)?;
    answer_on(alloc, &graph, limit)
}

/// The nodes of the ring's proof for two predicates: an Unfold, whose first case takes four nodes and whose second
/// gives the predicate's atom the place after a cell, which a Frame takes away; twice, and then the link to node 0.
const RING_OF_TWO: Nodes = &[
    (&[0], &[(1, &[]), (5, &[(0, 1, true)])]),
    (&[], &[(2, &[])]),
    (&[], &[(3, &[])]),
    (&[], &[(4, &[])]),
    (&[], &[]),
    (&[1], &[(6, &[(1, 1, false)])]),
    (&[1], &[(7, &[(1, 1, false)])]),
    (&[1], &[(8, &[(1, 0, false)])]),
    (&[0], &[(9, &[]), (13, &[(0, 1, true)])]),
    (&[], &[(10, &[])]),
    (&[], &[(11, &[])]),
    (&[], &[(12, &[])]),
    (&[], &[]),
    (&[1], &[(14, &[(1, 1, false)])]),
    (&[1], &[(15, &[(1, 1, false)])]),
    (&[1], &[(16, &[(1, 0, false)])]),
    (&[0], &[(0, &[(0, 0, false)])]),
];

const PROGRESS: Nodes = &[(&[0, 1], &[(0, &[(0, 0, true)])])];

const NO_PROGRESS: Nodes = &[
    (&[0, 1], &[(1, &[(0, 1, false)])]),
    (&[0, 1], &[(0, &[(1, 0, false)])]),
];

const EACH_ALONE: Nodes = &[(&[0, 1], &[(0, &[(0, 0, true)]), (0, &[(1, 1, true)])])];

const IN_TURN: Nodes = &[(
    &[0, 1],
    &[
        (0, &[(0, 0, true), (1, 1, false)]),
        (0, &[(0, 0, false), (1, 1, true)]),
    ],
)];

/// Graphs, limits on states, and what is answered. The ring's product has seventeen states.
static ANSWERS: &[(Nodes, u32, &str)] = &[
    (PROGRESS, 0, "too many states"),
    (PROGRESS, 1, "too many states"),
    (PROGRESS, 2, "included"),
    (NO_PROGRESS, 0, "too many states"),
    (NO_PROGRESS, 100, "counter"),
    (EACH_ALONE, 100, "counter"),
    (IN_TURN, 100, "included"),
    (RING_OF_TWO, 16, "too many states"),
    (RING_OF_TWO, 17, "included"),
];

#[test]
fn answers(rt: HostRuntime) -> Result<(), Fail> {
    let alloc = rt.alloc();
    for (number, (nodes, limit, wanted)) in ANSWERS.iter().enumerate() {
        assert!(rt; answer_of(alloc, nodes, *limit)? == *wanted, "row {number}");
    }
    Ok(())
}

/// A node with so many positions, and an edge back to it: each position but the last goes to itself without progress,
/// and these pairs more.
fn loop_of(alloc: Global, count: u8, more: &[(u8, u8, bool)]) -> Result<TraceGraph, OutOfMemory> {
    let mut positions = Vec::new(alloc);
    let mut pairs = Vec::new(alloc);
    for position in 0..count {
        positions.push(position)?;
    }
    for position in 1..count {
        pairs.push((position - 1, position - 1, false))?;
    }
    for pair in more {
        pairs.push(*pair)?;
    }
    let mut edges = Vec::new(alloc);
    edges.push(Edge::new(0, pairs))?;
    let mut graph = TraceGraph::new(alloc);
    graph.push(Node::new(positions, edges))?;
    Ok(graph)
}

#[test]
fn progress_at_the_last_position(rt: HostRuntime) -> Result<(), Fail> {
    let alloc = rt.alloc();
    let last = MOST_POSITIONS - 1;
    let progress = loop_of(alloc, MOST_POSITIONS, &[(last, last, true)])?;
    assert!(rt; answer_on(alloc, &progress, 100)? == "included");
    let without = loop_of(alloc, MOST_POSITIONS, &[])?;
    assert!(rt; answer_on(alloc, &without, 100)? == "counter");
    let too_many = loop_of(alloc, MOST_POSITIONS + 1, &[])?;
    assert!(rt; answer_on(alloc, &too_many, 100)? == "no graph");
    Ok(())
}
