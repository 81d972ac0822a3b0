// The nodes of a derivation as the nodes of a proof.
ghost use Rattle.std.specs.Prelude.{◌≡◌, length, IfOk};
ghost use Rattle.derivations.specs.LogicNodes.{numbers_by, nodes_with};

use crate::tableaux::MadeNode;
use cyc_basics::memory::OutOfMemory;
use logics::{Logic, Numbers, ProofNode};
use std::alloc::Global;
use trace_pairs::{Node, TraceGraph};

/// The numbers of the premises of a node with these edges; a link, which names a node, has none.
fn numbers(alloc: Global, target: Option<u32>, traces: &Node) -> Result<Numbers, OutOfMemory>
    ensures { IfOk result (λ p. p ≡ numbers_by target traces.now.edges) }
{
    let mut numbers = Vec::new(alloc);
    if target.is_none() {
        for edge in traces.edges() {
            numbers.push(edge.target())?;
        }
    }
    Ok(Numbers::from_vec(numbers))
}

/// The nodes made, with the numbers of their premises by their edges in the trace graph.
pub fn nodes_made<L: Logic>(
    alloc: Global,
    logic: &L,
    graph: &TraceGraph,
    made: Vec<MadeNode<L::Judgement, L::Reason>>,
) -> Result<Vec<ProofNode<L::Judgement, L::Reason>>, OutOfMemory>
    requires { length made.items ≡ length graph.now }
    ensures { IfOk result (λ v. v.items ≡ nodes_with (L.logic logic.now).target graph.now made.items) }
{
    let mut nodes = Vec::new(alloc);
    for node in made {
        let Some(traces) = graph.node(nodes.len()) else {
            unreachable!();
        };
        let premises = numbers(alloc, logic.target(&node.reason), traces)?;
        let MadeNode { goal, reason } = node;
        let premise = goal.premise;
        let judgement = premise.judgement;
        nodes.push(ProofNode {
            judgement,
            reason,
            premises,
        })?;
    }
    Ok(nodes)
}
