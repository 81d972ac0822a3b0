//! The trace graph of a list of nodes.

ghost use Rattle.std.specs.Prelude.{◌≡◌, ◌≤◌, length, cond, map, IfOk};
ghost use Rattle.heap_formula.specs.Judgements.{antecedent as antecedent_of_judgement};
ghost use Rattle.proof_graph.specs.HeapViews.{heap_of, judgement_of};
ghost use Rattle.trace_pairs.specs.Graph.{IsPositionSet, IsGraph};
ghost use Rattle.proof_graph.specs.Nodes.{with_reason, changed_at, premises_of};
ghost use Rattle.proof_graph.specs.Traces.{positions_of, predicate_places as places_from, trace_edge as trace_edge_to};
ghost use Rattle.proof_graph.specs.Traces.{graph_edge, HasJoints, trace_node as trace_node_of};
ghost use Rattle.proof_graph.specs.Traces.{edges_of as edges_of_premises, trace_graph_of};

use crate::graph_nodes::{StoredNode, first_slot};
use crate::heap_views::{HeapView, JudgementView};
use crate::nodes::PremiseView;
use cyc_basics::limits::MOST_SPATIAL;
use cyc_basics::memory::OutOfMemory;
use heap_formula::{Heap, Judgement, NodeEdge, Pair, Pairs, Reason, Spatial};
use std::alloc::Global;
use trace_pairs::{Edge, Node, TraceGraph};

/// The antecedent, or the precondition.
fn antecedent_of_view<'a>(judgement: &JudgementView<'a>) -> HeapView<'a>
    ensures { heap_of result ≡ antecedent_of_judgement (judgement_of judgement.now) }
{
    match judgement {
        JudgementView::Entail(heap, _) => *heap,
        JudgementView::Term(_, heap) => *heap,
    }
}

/// The antecedent, or the precondition.
fn antecedent(judgement: &Judgement) -> &Heap
    ensures { result.now ≡ antecedent_of_judgement judgement.now }
{
    match judgement {
        Judgement::Entail(heap, _) => heap,
        Judgement::Term(_, heap) => heap,
    }
}

/// The places of the predicate atoms, from 0.
fn predicate_places(alloc: Global, atoms: &[Spatial]) -> Result<Vec<u8>, OutOfMemory>
    requires { length atoms.now ≤ MOST_SPATIAL }
    ensures value { IfOk result (λ v. v.items ≡ places_from 0 atoms.now) }
    ensures set { IfOk result (λ v. IsPositionSet v.items) }
{
    let mut positions = Vec::new(alloc);
    let mut place: u8 = 0;
    for atom in atoms {
        if let Spatial::Pred(_, _) = atom {
            positions.push(place)?;
        }
        place += 1;
    }
    Ok(positions)
}

/// The positions of a judgement's traces: the places of the predicate atoms among the spatial atoms of its antecedent,
/// from 0.
pub fn predicate_positions(alloc: Global, judgement: &Judgement) -> Result<Vec<u8>, OutOfMemory>
    ensures value { IfOk result (λ v. v.items ≡ positions_of judgement.now) }
    ensures set { IfOk result (λ v. IsPositionSet v.items) }
{
    predicate_places(alloc, antecedent(judgement).spatial())
}

/// The same of a judgement in an arena.
fn positions_of_view(alloc: Global, judgement: &JudgementView<'_>) -> Result<Vec<u8>, OutOfMemory>
    ensures value { IfOk result (λ v. v.items ≡ positions_of (judgement_of judgement.now)) }
    ensures set { IfOk result (λ v. IsPositionSet v.items) }
{
    let heap = antecedent_of_view(judgement);
    predicate_places(alloc, heap.spatial)
}

/// The edge of a trace graph to the node `target`, with these pairs.
pub fn trace_edge(alloc: Global, target: u32, pairs: &[Pair]) -> Result<Edge, OutOfMemory>
    ensures { IfOk result (λ e. e ≡ trace_edge_to target pairs.now) }
{
    let mut triples = Vec::new(alloc);
    for pair in pairs {
        triples.push((pair.old, pair.new, pair.progress))?;
    }
    Ok(Edge::new(target, triples))
}

/// The edges of a node as those of a trace graph.
pub fn trace_edges(alloc: Global, edges: &[NodeEdge]) -> Result<Vec<Edge>, OutOfMemory>
    ensures { IfOk result (λ v. v.items ≡ map graph_edge edges.now) }
{
    let mut traced = Vec::new(alloc);
    for edge in edges {
        traced.push(trace_edge(alloc, edge.target, edge.pairs.as_slice())?)?;
    }
    Ok(traced)
}

/// An edge for each filled slot.
fn edges_of(alloc: Global, premises: &[PremiseView<'_>]) -> Result<Vec<Edge>, OutOfMemory>
    ensures { IfOk result (λ v. v.items ≡ edges_of_premises premises.now) }
{
    let mut edges = Vec::new(alloc);
    for premise in premises {
        if let Some(target) = premise.slot {
            edges.push(trace_edge(alloc, target, premise.pairs)?)?;
        }
    }
    Ok(edges)
}

/// The node of the trace graph.
fn trace_node(alloc: Global, node: &StoredNode<'_>) -> Result<Node, OutOfMemory>
    ensures value { IfOk result (λ n. n ≡ trace_node_of node.now) }
    ensures set { IfOk result (λ n. IsPositionSet n.positions) }
{
    let parts = node.parts();
    let positions = positions_of_view(alloc, parts.judgement)?;
    let edges = edges_of(alloc, parts.premises)?;
    Ok(Node::new(positions, edges))
}

/// The trace graph of the nodes.
pub(crate) fn traces_of(alloc: Global, nodes: &[StoredNode<'_>]) -> Result<TraceGraph, OutOfMemory>
    ensures value { IfOk result (λ g. g ≡ trace_graph_of nodes.now) }
    ensures in_order { IfOk result (λ g. HasJoints nodes.now → IsGraph g) }
{
    let mut graph = TraceGraph::new(alloc);
    for node in nodes {
        graph.push(trace_node(alloc, node)?)?;
    }
    Ok(graph)
}

/// An edge for each premise with these pairs, where a slot holds this.
fn edges_with(alloc: Global, slot: Option<u32>, lists: &[Pairs]) -> Result<Vec<Edge>, OutOfMemory>
    ensures { IfOk result (λ v. v.items ≡ edges_of_premises (premises_of slot lists.now)) }
{
    let mut edges = Vec::new(alloc);
    for pairs in lists {
        if let Some(target) = slot {
            edges.push(trace_edge(alloc, target, pairs.as_slice())?)?;
        }
    }
    Ok(edges)
}

/// The node of the trace graph, with the reason where `given` says so.
fn trace_node_given(
    alloc: Global,
    node: &StoredNode<'_>,
    given: bool,
    reason: &Reason,
    pairs: &[Pairs],
) -> Result<Node, OutOfMemory>
    ensures { IfOk result (λ n. n ≡ trace_node_of (cond given (with_reason reason.now pairs.now node.now) node.now)) }
{
    if !given {
        return trace_node(alloc, node);
    }
    let parts = node.parts();
    let positions = positions_of_view(alloc, parts.judgement)?;
    let edges = edges_with(alloc, first_slot(reason), pairs)?;
    Ok(Node::new(positions, edges))
}

/// The trace graph of the nodes, with this reason at one of them.
pub(crate) fn traces_with(
    alloc: Global,
    nodes: &[StoredNode<'_>],
    place: usize,
    reason: &Reason,
    pairs: &[Pairs],
) -> Result<TraceGraph, OutOfMemory>
    ensures { IfOk result (λ g. g ≡ trace_graph_of (changed_at (with_reason reason.now pairs.now) nodes.now place)) }
{
    let mut graph = TraceGraph::new(alloc);
    for (i, node) in nodes.iter().enumerate() {
        graph.push(trace_node_given(alloc, node, i == place, reason, pairs)?)?;
    }
    Ok(graph)
}
