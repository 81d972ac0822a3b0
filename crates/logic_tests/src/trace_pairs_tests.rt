//! Lassos of small graphs, and of graphs of proofs.
use crate::graphs::{Nodes, graph_of};
use std::alloc::Global;
use std::test::Fail;
use trace_pairs::{Lasso, OutOfMemory, Step, TraceGraph, is_graph, is_lasso, lasso_progresses};

/// A stem, a cycle, and whether they progress; none where they are no lasso.
type Case = (&'static [(u32, u8)], &'static [(u32, u8)], Option<bool>);

fn steps_of(alloc: Global, steps: &[(u32, u8)]) -> Result<Vec<Step>, OutOfMemory> {
    let mut list = Vec::new(alloc);
    for (node, edge) in steps {
        let (node, edge) = (*node, *edge);
        list.push(Step { node, edge })?;
    }
    Ok(list)
}

/// Whether the steps are a lasso of the graph, and if so, whether it progresses.
fn verdict(
    alloc: Global,
    graph: &TraceGraph,
    stem: &[(u32, u8)],
    cycle: &[(u32, u8)],
) -> Result<Option<bool>, OutOfMemory> {
    let lasso = Lasso::new(steps_of(alloc, stem)?, steps_of(alloc, cycle)?);
    if is_graph(graph) && is_lasso(graph, &lasso) {
        Ok(Some(lasso_progresses(alloc, graph, &lasso)?))
    } else {
        Ok(None)
    }
}

fn all_right(alloc: Global, nodes: Nodes, cases: &'static [Case]) -> Result<bool, OutOfMemory> {
    let graph = graph_of(alloc, nodes)?;
    for (stem, cycle, progresses) in cases {
        if verdict(alloc, &graph, stem, cycle)? != *progresses {
            return Ok(false);
        }
    }
    Ok(true)
}

const MIXED: Nodes = &[
    (&[0, 1], &[(1, &[(0, 0, false)]), (1, &[(0, 1, true)])]),
    (
        &[0, 1],
        &[(1, &[(0, 0, false), (1, 1, true)]), (2, &[(0, 1, true)])],
    ),
    (&[0, 1], &[(1, &[(1, 0, false)]), (1, &[(0, 0, true)])]),
];

const MIXED_CASES: &[Case] = &[
    (&[(0, 0)], &[(1, 0)], Some(true)),
    (&[(0, 1)], &[(1, 1), (2, 0)], Some(true)),
    (&[(0, 1)], &[(1, 1), (2, 1)], Some(false)),
    (&[(0, 0), (1, 1)], &[(2, 0), (1, 0), (1, 1)], Some(true)),
    (&[(0, 1), (1, 0), (1, 1)], &[(2, 1), (1, 1)], Some(false)),
    (&[(0, 0)], &[], None),
    (&[], &[(1, 0)], None),
    (&[(0, 2)], &[(1, 0)], None),
    (&[(0, 0)], &[(1, 1)], None),
    (&[(0, 0)], &[(2, 0), (1, 1)], None),
    (&[(3, 0)], &[(1, 0)], None),
];

// Two segments of a list make one: the unfolded segment comes back, one cell shorter, as the first of the two.
const SEGMENTS: Nodes = &[
    (
        &[0, 1],
        &[(1, &[(1, 0, false)]), (4, &[(1, 0, false), (0, 2, true)])],
    ),
    (&[0], &[(2, &[(0, 0, false)])]),
    (&[0], &[(3, &[])]),
    (&[], &[]),
    (&[0, 2], &[(5, &[(0, 0, false), (2, 2, false)])]),
    (&[0, 2], &[(6, &[(0, 0, false), (2, 2, false)])]),
    (&[0, 2], &[(7, &[(0, 0, false), (2, 1, false)])]),
    (&[0, 1], &[(0, &[(1, 0, false), (0, 1, false)])]),
];

const SEGMENTS_CASES: &[Case] = &[
    (&[], &[(0, 1), (4, 0), (5, 0), (6, 0), (7, 0)], Some(true)),
    (
        &[(0, 1), (4, 0)],
        &[(5, 0), (6, 0), (7, 0), (0, 1), (4, 0)],
        Some(true),
    ),
    (&[], &[(0, 0), (1, 0), (2, 0)], None),
];

// A list is weakened and linked back, and nothing is unfolded.
const WEAKENED: Nodes = &[
    (&[0], &[(1, &[(0, 0, false)])]),
    (&[0], &[(0, &[(0, 0, false)])]),
];

const WEAKENED_CASES: &[Case] = &[
    (&[], &[(0, 0), (1, 0)], Some(false)),
    (&[(0, 0)], &[(1, 0), (0, 0)], Some(false)),
];

// Two lists hand each other their cells: each loop alone progresses, and taken in turn they don't.
const ALTERNATING: Nodes = &[
    (
        &[0, 1],
        &[(1, &[(1, 0, false)]), (12, &[(1, 0, false), (0, 2, true)])],
    ),
    (&[0], &[(2, &[]), (3, &[(0, 1, true)])]),
    (&[], &[]),
    (&[1], &[(4, &[]), (11, &[(1, 0, false)])]),
    (&[], &[(5, &[])]),
    (&[], &[(6, &[])]),
    (&[], &[(7, &[])]),
    (&[], &[(8, &[])]),
    (&[], &[(9, &[])]),
    (&[], &[(10, &[])]),
    (&[], &[]),
    (&[0, 1], &[(0, &[(1, 0, false), (0, 1, false)])]),
    (&[0, 2], &[(13, &[(0, 0, false)]), (19, &[(2, 0, false)])]),
    (&[0], &[(14, &[(0, 0, false)])]),
    (&[0], &[(15, &[(0, 0, false)])]),
    (&[0], &[(16, &[(0, 0, false)])]),
    (&[0], &[(17, &[(0, 0, false)])]),
    (&[0], &[(18, &[])]),
    (&[], &[]),
    (&[0, 1], &[(0, &[(0, 0, false), (1, 1, false)])]),
];

const ALTERNATING_CASES: &[Case] = &[
    (&[], &[(0, 1), (12, 1), (19, 0)], Some(true)),
    (&[], &[(0, 0), (1, 1), (3, 1), (11, 0)], Some(true)),
    (
        &[],
        &[(0, 1), (12, 1), (19, 0), (0, 0), (1, 1), (3, 1), (11, 0)],
        Some(false),
    ),
    (&[(0, 1), (12, 1)], &[(19, 0), (0, 1), (12, 1)], Some(true)),
];

static GRAPHS: &[(Nodes, &[Case])] = &[
    (MIXED, MIXED_CASES),
    (SEGMENTS, SEGMENTS_CASES),
    (WEAKENED, WEAKENED_CASES),
    (ALTERNATING, ALTERNATING_CASES),
];

#[test]
fn lassos(rt: HostRuntime) -> Result<(), Fail> {
    let alloc = rt.alloc();
    assert!(rt; !is_graph(&TraceGraph::new(alloc)));
    for (number, (nodes, cases)) in GRAPHS.iter().enumerate() {
        assert!(rt; all_right(alloc, nodes, cases)?, "graph {number}");
    }
    Ok(())
}
