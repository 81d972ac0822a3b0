// Whether every lasso of a draft progresses, and the links that keep it so.
use crate::draft::{Draft, DraftEdge};
use crate::setting::Setting;
use back_links::all_links;
use buchi_inclusion::{Inclusion, included};
use cyc_basics::memory::OutOfMemory;
use heap_formula::{Heap, Link, Pair, Reason, RuleError, Spatial};
use rule_book::reasons::premises_by_reason;
use rule_book::variables_of;
use rule_table::antecedent;
use std::alloc::Global;
use trace_pairs::{Edge, Node, TraceGraph, is_graph};

/// The greatest number of product states of a draft's trace graph.
const MOST_STATES_TRIED: u32 = 10_000;

/// The greatest number of links that are looked at between two nodes.
const MOST_LINKS_TRIED: u32 = 64;

/// The places of predicate atoms.
fn positions(alloc: Global, heap: &Heap) -> Result<Vec<u8>, OutOfMemory> {
    let mut places = Vec::new(alloc);
    for (place, atom) in heap.spatial().iter().enumerate() {
        if let Spatial::Pred(_, _) = atom {
            places.push(place as u8)?;
        }
    }
    Ok(places)
}

fn triples(alloc: Global, pairs: &[Pair]) -> Result<Vec<(u8, u8, bool)>, OutOfMemory> {
    let mut triples = Vec::new(alloc);
    for pair in pairs {
        triples.push((pair.old, pair.new, pair.progress))?;
    }
    Ok(triples)
}

/// Adds the edges that have a node already.
fn push_edges(
    found: &mut Vec<Edge>,
    alloc: Global,
    edges: &[DraftEdge],
) -> Result<(), OutOfMemory> {
    for edge in edges {
        if let Some(target) = edge.target {
            let pairs = triples(alloc, edge.pairs.as_slice())?;
            found.push(Edge::new(target, pairs))?;
        }
    }
    Ok(())
}

/// Adds a node for each of the draft's.
fn push_nodes(graph: &mut TraceGraph, alloc: Global, draft: &Draft) -> Result<(), OutOfMemory> {
    for node in draft.nodes.iter() {
        let mut edges = Vec::new(alloc);
        push_edges(&mut edges, alloc, &node.edges)?;
        let places = positions(alloc, antecedent(&node.judgement))?;
        graph.push(Node::new(places, edges))?;
    }
    Ok(())
}

/// Whether every lasso of the draft progresses, as far as few product states tell.
pub fn progresses(alloc: Global, draft: &Draft) -> Result<bool, OutOfMemory> {
    let mut graph = TraceGraph::new(alloc);
    push_nodes(&mut graph, alloc, draft)?;
    if !is_graph(&graph) {
        return Ok(false);
    }
    let inclusion = included(alloc, &graph, MOST_STATES_TRIED)?;
    Ok(matches!(inclusion, Inclusion::Included))
}

fn links(
    setting: &Setting<'_>,
    draft: &Draft,
    bud: u32,
    companion: u32,
) -> Result<Vec<Link>, OutOfMemory> {
    let (Some(below), Some(above)) = (draft.node(bud), draft.node(companion)) else {
        return Ok(Vec::new(setting.alloc));
    };
    let variables = variables_of(setting.program, &below.judgement);
    all_links(
        setting.alloc,
        &below.judgement,
        &above.judgement,
        companion,
        variables,
        MOST_LINKS_TRIED,
    )
}

/// Gives a node that a link closes its one edge.
fn push_link_edge(
    setting: &Setting<'_>,
    draft: &mut Draft,
    bud: u32,
    companion: u32,
) -> Result<(), OutOfMemory> {
    let (Some(below), Some(above)) = (draft.node(bud), draft.node(companion)) else {
        return Ok(());
    };
    let Some(reason) = &below.reason else {
        return Ok(());
    };
    match premises_by_reason(
        setting.alloc,
        setting.defs,
        setting.program,
        &below.judgement,
        reason,
        Some(&above.judgement),
    ) {
        Ok(premises) => draft.push_edges(bud, &premises, Some(companion)),
        Err(RuleError::Fault(_)) => Ok(()),
        Err(RuleError::OutOfMemory) => Err(OutOfMemory),
    }
}

/// Closes a node by a link, with the pairs of its map; a link with a fault has none, and no edge.
pub fn close_by_link(
    setting: &Setting<'_>,
    draft: &mut Draft,
    bud: u32,
    companion: u32,
    link: Link,
) -> Result<(), OutOfMemory> {
    draft.close(bud, Reason::Back(link), Vec::new(setting.alloc));
    push_link_edge(setting, draft, bud, companion)
}

/// Closes a node by the first link to a companion with which every lasso of the draft progresses, if there is one.
pub fn link(
    setting: &Setting<'_>,
    draft: &mut Draft,
    bud: u32,
    companion: u32,
) -> Result<bool, OutOfMemory> {
    let kept = draft.len();
    for link in links(setting, draft, bud, companion)? {
        close_by_link(setting, draft, bud, companion, link)?;
        match progresses(setting.alloc, draft) {
            Ok(false) => draft.reopen(bud, kept),
            other => return other,
        }
    }
    Ok(false)
}
