// First-order logic as a logic whose derivations are searched for.
use crate::offering::offers_at;
use crate::reasons::RuleReasons;
use cyc_basics::memory::OutOfMemory;
use derivations::found::effect_of;
use derivations::search::Offers;
use derivations::tableaux::{MadeNode, OpenGoal, Rules};
use derivations::{Effect, Logic, Strategy};
use fo_formula::{FoReason, FoSequent};
use fo_logic::FirstOrder;
use std::alloc::Global;

/// First-order logic with what goals are offered.
#[derive(Drop)]
pub struct FirstOrderSearch<'a> {
    pub logic: FirstOrder<'a>,
}

impl Rules for FirstOrderSearch<'_> {
    ghost use Rattle.fo_search.specs.Moves.{calculus_in, occurs_in, allows_in};

    type Judgement = FoSequent;

    type Reason = FoReason;

    ghost calculus = { calculus_in };

    ghost occurs = { occurs_in };

    ghost allows = { allows_in };
}

impl Logic for FirstOrderSearch<'_> {
    fn positions(&self, alloc: Global, sequent: &FoSequent) -> Result<Vec<u8>, OutOfMemory> {
        logics::Logic::positions(&self.logic, alloc, sequent)
    }

    fn effect(
        &self,
        alloc: Global,
        made: &[MadeNode<FoSequent, FoReason>],
        goal: &OpenGoal<FoSequent>,
        reason: &FoReason,
    ) -> Result<Option<Effect<FoSequent>>, OutOfMemory> {
        effect_of(alloc, &self.logic, made, goal, reason)
    }
}

impl<'a> Strategy for FirstOrderSearch<'a> {
    type RuleCursor = RuleReasons<'a>;

    fn offers(
        &self,
        alloc: Global,
        made: &[MadeNode<FoSequent, FoReason>],
        goal: &OpenGoal<FoSequent>,
    ) -> Result<Offers<FoReason, RuleReasons<'a>>, OutOfMemory> {
        offers_at(alloc, self.logic.theory, made, goal, usize::MAX)
    }

    fn offers_within(
        &self,
        alloc: Global,
        made: &[MadeNode<FoSequent, FoReason>],
        goal: &OpenGoal<FoSequent>,
        most: usize,
    ) -> Result<Offers<FoReason, RuleReasons<'a>>, OutOfMemory> {
        offers_at(alloc, self.logic.theory, made, goal, most)
    }
}
