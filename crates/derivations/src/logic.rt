// Logics whose derivations are searched for.
ghost use Rattle.std.specs.Prelude.{◌≡◌, ◌<◌, length, IfOk};
ghost use Rattle.derivations.specs.Fair.{AllOccur};
ghost use Rattle.derivations.specs.Effects.{IsEffect, LeavesOut};

use crate::search::{Cursor, Offers};
use crate::tableaux::{MadeNode, OpenGoal, Rules, Subgoal};
use cyc_basics::memory::OutOfMemory;
use std::alloc::Global;
use trace_pairs::Edge;

/// What a reason makes of a goal: the premises that it leaves to be proved, and, of a link, the edge to where it leads.
/// A link leaves nothing.
#[derive(Drop)]
pub struct Effect<J> {
    pub premises: Vec<Subgoal<J>>,
    pub back: Option<Edge>,
}

/// A logic whose derivations are searched for, for as long as the judgements and reasons are those of its calculus.
pub trait Logic: Rules + Drop {
    /// The positions of a judgement's traces, in ascending order.
    fn positions(&self, alloc: Global, judgement: &Self::Judgement) -> Result<Vec<u8>, OutOfMemory>
        requires { Self.occurs self.now judgement.now }
        ensures { IfOk result (λ v. v.items ≡ (Self.calculus self.now).positions judgement.now) };

    /// What the reason makes of the goal, over the nodes made; nothing where it has a fault.
    fn effect(
        &self,
        alloc: Global,
        made: &[MadeNode<Self::Judgement, Self::Reason>],
        goal: &OpenGoal<Self::Judgement>,
        reason: &Self::Reason,
    ) -> Result<Option<Effect<Self::Judgement>>, OutOfMemory>
        requires occur { AllOccur (Self.occurs self.now) made.now goal.now }
        requires allowed { Self.allows self.now reason.now }
        ensures { IfOk result (IsEffect (Self.calculus self.now) made.now goal.now reason.now) };
}

/// A logic that tells from the nodes made and the next goal what that goal is offered.
pub trait Strategy: Logic {
    /// The rules that a goal is offered, told one by one. A logic that makes a list of them takes
    /// `VecDeque<Self::Reason>`.
    type RuleCursor: Cursor<Self::Reason>;

    /// The links to be tried, and the rules for the case that none of them is admitted, in order.
    fn offers(
        &self,
        alloc: Global,
        made: &[MadeNode<Self::Judgement, Self::Reason>],
        goal: &OpenGoal<Self::Judgement>,
    ) -> Result<Offers<Self::Reason, Self::RuleCursor>, OutOfMemory>
        requires occur { AllOccur (Self.occurs self.now) made.now goal.now }
        requires few { length made.now < 4294967296 }
        ensures links { IfOk result (λ o. o.links.items ≡ (Self.calculus self.now).links made.now goal.now) }
        ensures rules { IfOk result (λ o. Self.RuleCursor.left o.rules
            ≡ (Self.calculus self.now).rules made.now goal.now) };

    /// The same, where rules that leave more than `most` premises may be left out.
    fn offers_within(
        &self,
        alloc: Global,
        made: &[MadeNode<Self::Judgement, Self::Reason>],
        goal: &OpenGoal<Self::Judgement>,
        most: usize,
    ) -> Result<Offers<Self::Reason, Self::RuleCursor>, OutOfMemory>
        requires occur { AllOccur (Self.occurs self.now) made.now goal.now }
        requires few { length made.now < 4294967296 }
        ensures links { IfOk result (λ o. o.links.items ≡ (Self.calculus self.now).links made.now goal.now) }
        ensures rules { IfOk result (λ o. LeavesOut (Self.calculus self.now) made.now goal.now most
            ((Self.calculus self.now).rules made.now goal.now) (Self.RuleCursor.left o.rules)) }
    {
        let _most = most;
        let offers = self.offers(alloc, made, goal)?;
        Ok(offers)
    }
}
