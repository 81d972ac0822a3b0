//! The nodes of a proof graph as data, and as they lie in an arena.

ghost use Rattle.std.specs.Prelude.{◌≡◌, IfOk};
ghost use Rattle.proof_graph.specs.Nodes.{premise_below, with_slot};

use cyc_basics::memory::OutOfMemory;
use heap_formula::{Judgement, Pair, Pairs, Reason};
use std::alloc::Global;
use std::marker::Model;

/// The trace pairs of the premises of a reason, in the order of the premises.
#[derive(Drop)]
pub struct PremisePairs {
    lists: Vec<Pairs>,
}

impl Model for PremisePairs {
    ghost use Rattle.std.specs.Prelude.{List};
    ghost use Rattle.heap_formula.specs.declared.judgements.Pair.{Pair};

    ghost Value = { List (List Pair) };

    ghost view = { λ p. p.lists.items };
}

impl PremisePairs {
    /// These lists in this order, without a copy.
    pub fn from_vec(lists: Vec<Pairs>) -> PremisePairs
        ensures { result ≡ lists.items }
    {
        PremisePairs { lists }
    }

    /// The lists in order.
    pub fn as_slice(&self) -> &[Pairs]
        ensures { result.now ≡ self.now }
    {
        &self.lists
    }
}

/// A premise of a node: the trace pairs from the node to it, and its slot, which holds the number of the node that
/// proves it, or is empty.
#[derive(Drop)]
pub struct GraphPremise {
    pub pairs: Pairs,
    pub slot: Option<u32>,
}

/// The premises of a node, in the order of its reason.
#[derive(Drop)]
pub struct GraphPremises {
    premises: Vec<GraphPremise>,
}

impl Model for GraphPremises {
    ghost use Rattle.std.specs.Prelude.{List};
    ghost use Rattle.proof_graph.specs.declared.nodes.GraphPremise.{GraphPremise};

    ghost Value = { List GraphPremise };

    ghost view = { λ p. p.premises.items };
}

impl GraphPremises {
    /// These premises in this order, without a copy.
    pub fn from_vec(premises: Vec<GraphPremise>) -> GraphPremises
        ensures { result ≡ premises.items }
    {
        GraphPremises { premises }
    }

    /// The premises in order.
    pub fn as_slice(&self) -> &[GraphPremise]
        ensures { result.now ≡ self.now }
    {
        &self.premises
    }
}

/// A node: its judgement, its reason if it has one, and the premises of that reason. A node without a reason has none.
#[derive(Drop)]
pub struct GraphNode {
    pub judgement: Judgement,
    pub reason: Option<Reason>,
    pub premises: GraphPremises,
}

/// A premise whose trace pairs lie in an arena. A contract sees it as the premise.
#[derive(Default, Drop)]
pub struct PremiseView<'a> {
    pub pairs: &'a [Pair],
    pub slot: Option<u32>,
}

impl<'a> Model for PremiseView<'a> {
    ghost use Rattle.proof_graph.specs.declared.nodes.GraphPremise.{GraphPremise};

    ghost Value = { GraphPremise };

    ghost view = { λ p. record { pairs = p.pairs.now; slot = p.slot } };
}

fn pairs_from(alloc: Global, pairs: &[Pair]) -> Result<Pairs, OutOfMemory>
    ensures { IfOk result (λ copy. copy ≡ pairs.now) }
{
    let mut copy = Pairs::new(alloc);
    for pair in pairs {
        copy.push(*pair)?;
    }
    Ok(copy)
}

impl<'a> PremiseView<'a> {
    /// A copy of the premise.
    pub(crate) fn copy(&self, alloc: Global) -> Result<GraphPremise, OutOfMemory>
        ensures { IfOk result (λ copy. copy ≡ self.now) }
    {
        let pairs = pairs_from(alloc, self.pairs)?;
        Ok(GraphPremise {
            pairs,
            slot: self.slot,
        })
    }

    pub(crate) fn fill(&mut self, child: u32)
        ensures { self.new ≡ with_slot child self.old }
    {
        self.slot = Some(child);
    }

    /// Empties the slot if it holds `n` or above.
    pub(crate) fn empty_from(&mut self, n: u32)
        ensures { self.new ≡ premise_below n self.old }
    {
        if let Some(node) = self.slot {
            if node >= n {
                self.slot = None;
            }
        }
    }
}
