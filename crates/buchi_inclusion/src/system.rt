//! The check of a proof system: its least faulty node, and else whether all its lassos progress.

ghost use Rattle.std.specs.Prelude.{◌≡◌, IfOk};
ghost use Rattle.trace_pairs.specs.System.{NoneFaulty};
ghost use Rattle.buchi_inclusion.specs.Checked.{FindsFaulty, IsChecked};

use crate::{Inclusion, included};
use cyc_basics::memory::OutOfMemory;
use std::alloc::Global;
use trace_pairs::{Lasso, Node, ProofSystem, TraceGraph};

/// What is known of a proof: it is accepted; its least faulty node; a lasso that doesn't progress; or that there are
/// more product states than the limit.
#[derive(Drop)]
pub enum Checked {
    Accepted,
    Faulty(u32),
    PathRefused(Lasso),
    TooManyStates,
}

/// The least faulty node.
fn least_faulty<P: ProofSystem>(alloc: Global, proof: &P) -> Result<Option<u32>, OutOfMemory>
    ensures { IfOk result (FindsFaulty (P.graph_of proof.now) (P.is_faulty proof.now)) }
{
    for node in 0..proof.nodes() {
        if proof.faulty(alloc, node)? {
            return Ok(Some(node));
        }
    }
    Ok(None)
}

/// The graph of a proof without a faulty node.
fn graph_of<P: ProofSystem>(alloc: Global, proof: &P) -> Result<TraceGraph, OutOfMemory>
    requires { NoneFaulty (P.graph_of proof.now) (P.is_faulty proof.now) }
    ensures { IfOk result (λ g. g ≡ P.graph_of proof.now) }
{
    let mut graph = TraceGraph::new(alloc);
    for node in 0..proof.nodes() {
        let positions = proof.positions(alloc, node)?;
        let edges = proof.edges(alloc, node)?;
        graph.push(Node::new(positions, edges))?;
    }
    Ok(graph)
}

/// Checks a proof: its nodes first, then the number of product states, then its lassos. Where it is accepted node 0
/// holds at all stages.
pub fn check_system<P: ProofSystem>(
    alloc: Global,
    proof: &P,
    limit: u32,
) -> Result<Checked, OutOfMemory>
    ensures { IfOk result (IsChecked (P.graph_of proof.now) (P.is_faulty proof.now) (P.holds proof.now) limit) }
{
    let faulty = least_faulty(alloc, proof)?;
    if let Some(node) = faulty {
        return Ok(Checked::Faulty(node));
    }
    let graph = graph_of(alloc, proof)?;
    match included(alloc, &graph, limit)? {
        Inclusion::Included => Ok(Checked::Accepted),
        Inclusion::Counter(lasso) => Ok(Checked::PathRefused(lasso)),
        Inclusion::TooManyStates => Ok(Checked::TooManyStates),
    }
}
