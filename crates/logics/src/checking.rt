// The verdict on a proof.
ghost use Rattle.std.specs.Prelude.{ℕ, ◌≡◌, ◌<◌, ◌^◌, length, IfOk};
ghost use Rattle.logics.specs.Laws.{MayStand};
ghost use Rattle.logics.specs.Tests.{IsTested};
ghost use Rattle.logics.specs.Verdicts.{IsVerdict};

use crate::logic::Logic;
use crate::node::ProofNode;
use crate::node_tests::{NodeAnswer, test_node};
use crate::verdict::Verdict;
use buchi_inclusion::{Inclusion, MOST_PRODUCT_STATES, included};
use cyc_basics::memory::OutOfMemory;
use std::alloc::Global;
use trace_pairs::{Node, TraceGraph};

/// The trace graph of nodes that are right, or the least one that is not, with its first fault.
#[derive(Drop)]
pub enum Tested<F> {
    Right(TraceGraph),
    Faulty { node: u32, fault: F },
}

/// Tests the nodes in order, up to the first fault.
fn test_nodes<L: Logic>(
    alloc: Global,
    logic: &L,
    nodes: &[ProofNode<L::Judgement, L::Reason>],
) -> Result<Tested<L::Fault>, OutOfMemory>
    requires few { length nodes.now < 2 ^ 32 }
    requires stand { MayStand (L.occurs logic.now) (L.allows logic.now) nodes.now }
    ensures { IfOk result (IsTested (L.logic logic.now) nodes.now) }
{
    let mut graph = TraceGraph::new(alloc);
    for (v, node) in nodes.iter().enumerate() {
        match test_node(alloc, logic, nodes, v, node)? {
            NodeAnswer::Right(edges) => {
                let positions = logic.positions(alloc, &node.judgement)?;
                graph.push(Node::new(positions, edges))?;
            }
            NodeAnswer::Faulty(fault) => {
                let node = v as u32;
                return Ok(Tested::Faulty { node, fault });
            }
        }
    }
    Ok(Tested::Right(graph))
}

/// The verdict on a proof in a logic: the least node that is not right, with its first fault; else that the product
/// states are too many; else a lasso that does not progress; else that the proof is correct, and then the judgement of
/// node 0 holds (Brotherston, Gorogiannis and Petersen 2012). Which lasso is named, where several do not progress, is
/// left open.
pub fn check_proof<L: Logic>(
    alloc: Global,
    logic: &L,
    nodes: &[ProofNode<L::Judgement, L::Reason>],
) -> Result<Verdict<L::Fault>, OutOfMemory>
    requires some { 0 < length nodes.now }
    requires few { length nodes.now < 2 ^ 32 }
    requires stand { MayStand (L.occurs logic.now) (L.allows logic.now) nodes.now }
    ensures { IfOk result (IsVerdict (L.logic logic.now) (L.holds logic.now) nodes.now) }
{
    let graph = match test_nodes(alloc, logic, nodes)? {
        Tested::Right(graph) => graph,
        Tested::Faulty { node, fault } => return Ok(Verdict::RuleRefused { node, fault }),
    };
    match included(alloc, &graph, MOST_PRODUCT_STATES)? {
        Inclusion::Included => Ok(Verdict::Accepted),
        Inclusion::Counter(lasso) => Ok(Verdict::PathRefused { lasso }),
        Inclusion::TooManyStates => Ok(Verdict::TooManyStates),
    }
}
