//! The nodes of a graph, with what the arena holds of them.

ghost use Rattle.std.specs.Prelude.{◌≡◌, ◌<◌, length, map, option_map, IfOk, OnOk, OnErr};
ghost use Rattle.proof_graph.specs.Nodes.{changed_at, open_node, with_slot, with_reason, without_reason, with_premise};
ghost use Rattle.proof_graph.specs.Nodes.{node_below, premise_below, first_slot as first_slot_of};
ghost use Rattle.proof_graph.specs.Nodes.{premises_of as premises_with};
ghost use Rattle.proof_graph.specs.ReasonViews.{reason_of};

use crate::heap_views::JudgementView;
use crate::nodes::{GraphNode, GraphPremises, PremiseView};
use crate::reason_views::{ReasonView, store_reason};
use bumpalo::Bump;
use cyc_basics::memory::OutOfMemory;
use heap_formula::{Judgement, Pair, Pairs, Reason};
use smallvec::SmallVec;
use std::alloc::Global;
use std::marker::Model;

/// A node whose judgement, reason and trace pairs lie in an arena. A contract sees it as the node.
#[derive(Drop)]
pub(crate) struct StoredNode<'a> {
    judgement: JudgementView<'a>,
    reason: Option<ReasonView<'a>>,
    premises: SmallVec<PremiseView<'a>, 2>,
}

impl<'a> Model for StoredNode<'a> {
    ghost use Rattle.std.specs.Prelude.{option_map};
    ghost use Rattle.proof_graph.specs.declared.nodes.GraphNode.{GraphNode};
    ghost use Rattle.proof_graph.specs.HeapViews.{judgement_of};
    ghost use Rattle.proof_graph.specs.ReasonViews.{reason_of};

    ghost Value = { GraphNode };

    ghost view = { λ n. record {
      judgement = judgement_of n.judgement;
      reason = option_map reason_of n.reason;
      premises = n.premises.items;
    } };
}

/// The parts of a node, borrowed from its graph.
#[derive(Clone, Copy)]
pub struct NodeView<'a> {
    pub judgement: &'a JudgementView<'a>,
    pub reason: Option<&'a ReasonView<'a>>,
    pub premises: &'a [PremiseView<'a>],
}

/// What the slots of a reason hold at first.
pub(crate) fn first_slot(reason: &Reason) -> Option<u32>
    ensures { result ≡ first_slot_of reason.now }
{
    match reason {
        Reason::Step(_) => None,
        Reason::Back(link) => Some(link.target),
    }
}

/// Premises with copies of these pairs, and with one content of all slots.
fn premises_of<'a>(
    alloc: Global,
    arena: &'a Bump,
    slot: Option<u32>,
    lists: &[Pairs],
) -> Result<SmallVec<PremiseView<'a>, 2>, OutOfMemory>
    ensures { IfOk result (λ premises. premises.items ≡ premises_with slot lists.now) }
{
    let mut premises = SmallVec::new(alloc);
    for pairs in lists {
        let pairs: &'a [Pair] = arena.try_alloc_slice_copy(pairs.as_slice())?;
        premises.push(PremiseView { pairs, slot })?;
    }
    Ok(premises)
}

/// Fills slot `i`.
fn fill(premises: &mut [PremiseView<'_>], i: usize, child: u32)
    requires { i < length premises.old }
    ensures { premises.new ≡ changed_at (with_slot child) premises.old i }
{
    premises[i].fill(child);
}

/// Empties each slot that holds `n` or above.
fn empty_from(premises: &mut [PremiseView<'_>], n: u32)
    ensures { premises.new ≡ map (premise_below n) premises.old }
{
    for premise in premises.iter_mut() {
        premise.empty_from(n);
    }
}

impl<'a> StoredNode<'a> {
    ghost use Rattle.proof_graph.specs.NodeViews.{IsViewOf};

    /// A node without a reason.
    pub(crate) fn open(
        alloc: Global,
        arena: &'a Bump,
        judgement: &Judgement,
    ) -> Result<StoredNode<'a>, OutOfMemory>
        ensures { IfOk result (λ node. node ≡ open_node judgement.now) }
    {
        let judgement = JudgementView::store(alloc, arena, judgement)?;
        Ok(StoredNode {
            judgement,
            reason: None,
            premises: SmallVec::new(alloc),
        })
    }

    pub(crate) fn set_reason(
        &mut self,
        alloc: Global,
        arena: &'a Bump,
        reason: &Reason,
        pairs: &[Pairs],
    ) -> Result<(), OutOfMemory>
        ensures replaced { OnOk result (self.new ≡ with_reason reason.now pairs.now self.old) }
        ensures unchanged { OnErr result (self.new ≡ self.old) }
    {
        let premises = premises_of(alloc, arena, first_slot(reason), pairs)?;
        let reason = store_reason(arena, reason)?;
        self.reason = Some(reason);
        self.premises = premises;
        Ok(())
    }

    pub(crate) fn clear_reason(&mut self, alloc: Global)
        ensures { self.new ≡ without_reason self.old }
    {
        self.reason = None;
        self.premises = SmallVec::new(alloc);
    }

    pub(crate) fn set_premise(&mut self, i: usize, child: u32)
        requires { i < length self.old.premises }
        ensures { self.new ≡ with_premise i child self.old }
    {
        fill(self.premises.as_mut_slice(), i, child);
    }

    pub(crate) fn empty_from(&mut self, n: u32)
        ensures { self.new ≡ node_below n self.old }
    {
        empty_from(self.premises.as_mut_slice(), n);
    }

    /// Its parts.
    pub(crate) fn parts(&self) -> NodeView<'_>
        ensures { IsViewOf self.now result }
    {
        NodeView {
            judgement: &self.judgement,
            reason: self.reason.as_ref(),
            premises: self.premises.as_slice(),
        }
    }

    /// A copy of its judgement.
    pub(crate) fn judgement(&self, alloc: Global) -> Result<Judgement, OutOfMemory>
        ensures { IfOk result (λ j. j ≡ self.now.judgement) }
    {
        self.judgement.to_judgement(alloc)
    }
}

/// A copy of premises.
fn copy_of_premises(
    alloc: Global,
    premises: &[PremiseView<'_>],
) -> Result<GraphPremises, OutOfMemory>
    ensures { IfOk result (λ copy. copy ≡ premises.now) }
{
    let mut copies = Vec::new(alloc);
    for premise in premises {
        copies.push(premise.copy(alloc)?)?;
    }
    Ok(GraphPremises::from_vec(copies))
}

fn copy_of_reason(
    alloc: Global,
    reason: Option<ReasonView<'_>>,
) -> Result<Option<Reason>, OutOfMemory>
    ensures { IfOk result (λ copy. copy ≡ option_map reason_of reason.entry) }
{
    match reason {
        None => Ok(None),
        Some(reason) => Ok(Some(reason.to_reason(alloc)?)),
    }
}

impl<'a> StoredNode<'a> {
    /// A copy of the node.
    pub(crate) fn copy(&self, alloc: Global) -> Result<GraphNode, OutOfMemory>
        ensures { IfOk result (λ copy. copy ≡ self.now) }
    {
        let judgement = self.judgement.to_judgement(alloc)?;
        let reason = copy_of_reason(alloc, self.reason)?;
        let premises = copy_of_premises(alloc, self.premises.as_slice())?;
        Ok(GraphNode {
            judgement,
            reason,
            premises,
        })
    }
}
