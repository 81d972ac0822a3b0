// The moves of the search, on a partial derivation of a logic that tells its offers.
use crate::derivation::Derivation;
use crate::logic::Strategy;
use crate::rules::{NextRules, none_offered};
use crate::search::{Moves, Offers, Tried};
use cyc_basics::memory::OutOfMemory;
use std::alloc::Global;

impl<L: Strategy> Moves for Derivation<L, L::Judgement, L::Reason> {
    ghost use Rattle.derivations.specs.Derivations.{IsInOrder, IsItsSearch, reasons_in, about};

    type Reason = L::Reason;

    type Rules = NextRules<L::RuleCursor>;

    type Subject = (L, (u32, L::Judgement));

    ghost made = { reasons_in };

    ghost subject = { about };

    ghost in_order = { IsInOrder L.calculus L.occurs L.allows };

    ghost follows = { IsItsSearch L.calculus };

    ghost may_offer = { λ s r. L.allows s.0 r };

    fn is_complete(&self) -> bool {
        self.is_closed()
    }

    fn offers(
        &self,
        alloc: Global,
    ) -> Result<Offers<L::Reason, NextRules<L::RuleCursor>>, OutOfMemory> {
        match self.goals.last() {
            None => Ok(none_offered(alloc)),
            Some(goal) => {
                let Offers { links, rules } = self.logic.offers(alloc, &self.made, goal)?;
                let rules = NextRules::At(rules);
                Ok(Offers { links, rules })
            }
        }
    }

    fn offers_within(
        &self,
        alloc: Global,
        bound: u32,
    ) -> Result<Offers<L::Reason, NextRules<L::RuleCursor>>, OutOfMemory> {
        match self.goals.last() {
            None => Ok(none_offered(alloc)),
            Some(goal) => {
                let most = self.most_premises(goal.depth, bound);
                let Offers { links, rules } = self
                    .logic
                    .offers_within(alloc, &self.made, goal, most)?;
                let rules = NextRules::At(rules);
                Ok(Offers { links, rules })
            }
        }
    }

    fn try_link(&mut self, alloc: Global, link: &L::Reason) -> Result<Tried, OutOfMemory> {
        self.try_link_at_next(alloc, link)
    }

    fn has_too_many_states(&mut self, alloc: Global) -> Result<bool, OutOfMemory> {
        self.is_above_states(alloc)
    }

    fn follow(
        &mut self,
        alloc: Global,
        bound: u32,
        reason: L::Reason,
    ) -> Result<bool, OutOfMemory> {
        let Some(effect) = self.fitting_effect(alloc, bound, &reason)? else {
            return Ok(false);
        };
        self.take(alloc, reason, effect)?;
        Ok(true)
    }

    fn undo(&mut self, _alloc: Global) -> Result<(), OutOfMemory> {
        self.take_back()
    }
}
