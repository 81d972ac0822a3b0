// The first fault of a node, or its edges.
ghost use Rattle.std.specs.Prelude.{[], ◌∷◌, Some, None, ◌≡◌, ◌<◌, ◌^◌, length, slice_get, nat_lt, IfOk};
ghost use Rattle.logics.specs.Faults.{first_of, fault_unless, differs, premises_fault as premises_fault_of};
ghost use Rattle.logics.specs.Faults.{numbers_fault as numbers_fault_of, reason_fault, node_fault};
ghost use Rattle.logics.specs.Graphs.{edges_to, reason_edges, edges_of};
ghost use Rattle.logics.specs.Laws.{MayStand};
ghost use Rattle.logics.specs.Tests.{IsNodeAnswer};

use crate::logic::{Logic, Refused};
use crate::node::ProofNode;
use crate::premises::Subgoal;
use cyc_basics::memory::OutOfMemory;
use std::alloc::Global;
use trace_pairs::Edge;

/// A node that is right with its edges, or its first fault.
#[derive(Drop)]
pub enum NodeAnswer<F> {
    Right(Vec<Edge>),
    Faulty(F),
}

/// The fault of a premise: no node above this one has its number, or the node states something else.
fn premise_fault<L: Logic>(
    logic: &L,
    nodes: &[ProofNode<L::Judgement, L::Reason>],
    v: usize,
    i: usize,
    premise: &Subgoal<L::Judgement>,
    number: u32,
) -> Option<L::Fault>
    requires { i < 2 ^ 32 }
    ensures { result ≡ first_of (fault_unless (nat_lt v number) (L.logic logic.now).faults.no_such_node)
        (differs (L.logic logic.now) i premise.now (slice_get nodes.now number)) }
{
    if number as usize <= v || number as usize >= nodes.len() {
        return Some(logic.no_such_node());
    }
    if !logic.is_same(&premise.judgement, &nodes[number as usize].judgement) {
        return Some(logic.premise_differs(i as u32));
    }
    None
}

/// The first fault among the premises; both lists have one length.
fn premises_fault<L: Logic>(
    logic: &L,
    nodes: &[ProofNode<L::Judgement, L::Reason>],
    v: usize,
    premises: &[Subgoal<L::Judgement>],
    numbers: &[u32],
) -> Option<L::Fault>
    requires sizes { length premises.now ≡ length numbers.now }
    requires few { length premises.now < 2 ^ 32 }
    ensures { result ≡ premises_fault_of (L.logic logic.now) nodes.now v 0 premises.now numbers.now }
{
    for (i, premise) in premises.iter().enumerate() {
        if let Some(fault) = premise_fault(logic, nodes, v, i, premise, numbers[i]) {
            return Some(fault);
        }
    }
    None
}

/// The first fault of the numbers of a rule's premises.
fn numbers_fault<L: Logic>(
    logic: &L,
    nodes: &[ProofNode<L::Judgement, L::Reason>],
    v: usize,
    premises: &[Subgoal<L::Judgement>],
    numbers: &[u32],
) -> Option<L::Fault>
    requires { length premises.now < 2 ^ 32 }
    ensures { result ≡ numbers_fault_of (L.logic logic.now) nodes.now v premises.now numbers.now }
{
    if premises.len() != numbers.len() {
        return Some(logic.premise_count());
    }
    premises_fault(logic, nodes, v, premises, numbers)
}

/// An edge to the node of each premise.
fn premise_edges<J: Drop>(
    alloc: Global,
    premises: Vec<Subgoal<J>>,
    numbers: &[u32],
) -> Result<Vec<Edge>, OutOfMemory>
    requires { length premises.items ≡ length numbers.now }
    ensures { IfOk result (λ v. v.items ≡ edges_to premises.items numbers.now) }
{
    let mut edges = Vec::new(alloc);
    for premise in premises {
        let target = numbers[edges.len()];
        edges.push(Edge::new(target, premise.pairs.into_vec()))?;
    }
    Ok(edges)
}

/// A node whose reason is a rule.
fn test_rule<L: Logic>(
    alloc: Global,
    logic: &L,
    nodes: &[ProofNode<L::Judgement, L::Reason>],
    v: usize,
    node: &ProofNode<L::Judgement, L::Reason>,
) -> Result<NodeAnswer<L::Fault>, OutOfMemory>
    requires occurs { L.occurs logic.now node.now.judgement }
    requires allowed { L.allows logic.now node.now.judgement node.now.reason }
    ensures { IfOk result (IsNodeAnswer
        (reason_fault (L.logic logic.now) nodes.now v node.now.premises node.now.judgement node.now.reason None)
        (reason_edges (L.logic logic.now) nodes.now node.now.premises node.now.judgement node.now.reason None)) }
{
    let premises = match logic.premises(alloc, &node.judgement, &node.reason) {
        Ok(premises) => premises,
        Err(Refused::Fault(fault)) => return Ok(NodeAnswer::Faulty(fault)),
        Err(Refused::OutOfMemory) => return Err(OutOfMemory),
    };
    let numbers = node.premises.as_slice();
    if let Some(fault) = numbers_fault(logic, nodes, v, &premises, numbers) {
        return Ok(NodeAnswer::Faulty(fault));
    }
    Ok(NodeAnswer::Right(premise_edges(alloc, premises, numbers)?))
}

/// The one edge of a link.
fn edge_back(alloc: Global, edge: Edge) -> Result<Vec<Edge>, OutOfMemory>
    ensures { IfOk result (λ v. v.items ≡ edge ∷ []) }
{
    let mut edges = Vec::new(alloc);
    edges.push(edge)?;
    Ok(edges)
}

/// A node whose reason is a link to the node with this number.
fn test_link<L: Logic>(
    alloc: Global,
    logic: &L,
    nodes: &[ProofNode<L::Judgement, L::Reason>],
    v: usize,
    node: &ProofNode<L::Judgement, L::Reason>,
    target: u32,
) -> Result<NodeAnswer<L::Fault>, OutOfMemory>
    requires occurs { L.occurs logic.now node.now.judgement }
    requires allowed { L.allows logic.now node.now.judgement node.now.reason }
    requires stand { MayStand (L.occurs logic.now) (L.allows logic.now) nodes.now }
    ensures { IfOk result (IsNodeAnswer
        (reason_fault (L.logic logic.now) nodes.now v node.now.premises node.now.judgement node.now.reason
        (Some target))
        (reason_edges (L.logic logic.now) nodes.now node.now.premises node.now.judgement node.now.reason (Some target))) }
{
    let Some(companion) = nodes.get(target as usize) else {
        return Ok(NodeAnswer::Faulty(logic.no_such_node()));
    };
    let pairs = match logic.pairs_back(alloc, &node.judgement, &node.reason, &companion.judgement) {
        Ok(pairs) => pairs,
        Err(Refused::Fault(fault)) => return Ok(NodeAnswer::Faulty(fault)),
        Err(Refused::OutOfMemory) => return Err(OutOfMemory),
    };
    if !node.premises.as_slice().is_empty() {
        return Ok(NodeAnswer::Faulty(logic.premise_count()));
    }
    let edge = Edge::new(target, pairs.into_vec());
    Ok(NodeAnswer::Right(edge_back(alloc, edge)?))
}

/// The first fault of the node with number `v`, or its edges.
pub(crate) fn test_node<L: Logic>(
    alloc: Global,
    logic: &L,
    nodes: &[ProofNode<L::Judgement, L::Reason>],
    v: usize,
    node: &ProofNode<L::Judgement, L::Reason>,
) -> Result<NodeAnswer<L::Fault>, OutOfMemory>
    requires occurs { L.occurs logic.now node.now.judgement }
    requires allowed { L.allows logic.now node.now.judgement node.now.reason }
    requires stand { MayStand (L.occurs logic.now) (L.allows logic.now) nodes.now }
    ensures { IfOk result (IsNodeAnswer
        (node_fault (L.logic logic.now) nodes.now v node.now) (edges_of (L.logic logic.now) nodes.now node.now)) }
{
    match logic.target(&node.reason) {
        None => test_rule(alloc, logic, nodes, v, node),
        Some(target) => test_link(alloc, logic, nodes, v, node, target),
    }
}
