// What a logic says of itself.
ghost use Rattle.std.specs.Prelude.{◌≡◌, ℕ, ◌<◌, ◌^◌, IfOk};
ghost use Rattle.trace_pairs.specs.Graph.{IsPositionSet};
ghost use Rattle.logics.specs.Logics.{LogicValue};
ghost use Rattle.logics.specs.Answers.{IsPremises, IsPairsBack};
ghost use Rattle.logics.specs.Laws.{IsInOrder, IsLocallySound};

use crate::premises::{Subgoal, TracePairs};
use cyc_basics::memory::OutOfMemory;
use std::alloc::Global;

/// A rule's or link's first fault, or that memory is out.
#[derive(Drop)]
pub enum Refused<F> {
    Fault(F),
    OutOfMemory,
}

/// A logic: judgements, reasons for them, which are rules or links back, and what may be wrong with a reason.
pub trait Logic {
    /// What a node states.
    type Judgement: Drop;

    /// Why a node holds: a rule, or a link to a companion.
    type Reason: Drop;

    /// What may be wrong with a node.
    type Fault: Copy;

    /// The logic as plain data: rules, links, positions.
    ghost logic: { Self → LogicValue Self.Judgement Self.Reason Self.Fault };

    /// The judgements that may occur in a proof.
    ghost occurs: { Self → Self.Judgement → Type 0 };

    /// The reasons that may be given for a judgement.
    ghost allows: { Self → Self.Judgement → Self.Reason → Type 0 };

    /// The judgement holds at the stages, a number for each position.
    ghost holds: { Self → (ℕ → ℕ) → Self.Judgement → Type 0 };

    /// The positions of a judgement that traces follow, in ascending order.
    fn positions(&self, alloc: Global, judgement: &Self::Judgement) -> Result<Vec<u8>, OutOfMemory>
        requires { occurs self.now judgement.now }
        ensures value { IfOk result (λ v. v.items ≡ (logic self.now).positions judgement.now) }
        ensures set { IfOk result (λ v. IsPositionSet v.items) };

    /// Whether two judgements are one as they stand.
    fn is_same(&self, a: &Self::Judgement, b: &Self::Judgement) -> bool
        ensures { result ≡ (logic self.now).same a.now b.now };

    /// The number of the node that a link names; none of a rule.
    fn target(&self, reason: &Self::Reason) -> Option<u32>
        ensures { result ≡ (logic self.now).target reason.now };

    /// What a rule leaves to be shown of a judgement, or its first fault.
    fn premises(
        &self,
        alloc: Global,
        judgement: &Self::Judgement,
        reason: &Self::Reason,
    ) -> Result<Vec<Subgoal<Self::Judgement>>, Refused<Self::Fault>>
        requires occurs { occurs self.now judgement.now }
        requires allowed { allows self.now judgement.now reason.now }
        ensures { IsPremises result ((logic self.now).premises judgement.now reason.now) };

    /// The pairs along which traces go from a bud to the companion of its link, or the link's first fault.
    fn pairs_back(
        &self,
        alloc: Global,
        bud: &Self::Judgement,
        reason: &Self::Reason,
        companion: &Self::Judgement,
    ) -> Result<TracePairs, Refused<Self::Fault>>
        requires bud { occurs self.now bud.now }
        requires companion { occurs self.now companion.now }
        requires allowed { allows self.now bud.now reason.now }
        ensures { IsPairsBack result ((logic self.now).pairs_back bud.now reason.now companion.now) };

    /// The fault of a number that is no node's, or not above the node's own.
    fn no_such_node(&self) -> Self::Fault
        ensures { result ≡ (logic self.now).faults.no_such_node };

    /// The fault of another number of premises than the reason leaves.
    fn premise_count(&self) -> Self::Fault
        ensures { result ≡ (logic self.now).faults.premise_count };

    /// The fault of a premise whose node states something else; the premises are counted from 0.
    fn premise_differs(&self, place: u32) -> Self::Fault
        ensures { result ≡ (logic self.now).faults.premise_differs place };

    /// Premises are few, and pairs join positions.
    ghost in_order: { (l : Self) → IsInOrder (logic l) (occurs l) (allows l) };

    /// A judgement holds at stages where what its reason leaves to be shown holds at all stages that follow the pairs.
    ghost sound: { (l : Self) → IsLocallySound (logic l) (occurs l) (allows l) (holds l) };
}
