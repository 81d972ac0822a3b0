// Separation logic as a logic whose derivations are searched for.
ghost use Rattle.std.specs.Prelude.{◌≡◌, map, IfOk};
ghost use Rattle.heap_formula.specs.declared.proof_rules.Reason.TheVariants.{Step as by_rule, Back as by_link};

use crate::rules::RuleList;
use cyc_basics::memory::OutOfMemory;
use derivations::found::effect_of;
use derivations::search::Offers;
use derivations::tableaux::{MadeNode, OpenGoal, Rules};
use derivations::{Effect, Logic, Strategy};
use heap_formula::{Judgement, Link, Reason, Rule};
use rule_book::reasons::SeparationLogic;
use search_moves::{closing_offers, offers_of};
use std::alloc::Global;
use std::collections::VecDeque;

/// Separation logic with what goals are offered.
#[derive(Drop)]
pub struct SeparationSearch<'a> {
    pub logic: SeparationLogic<'a>,
}

fn as_links(alloc: Global, links: Vec<Link>) -> Result<VecDeque<Reason>, OutOfMemory>
    ensures { IfOk result (λ q. q.items ≡ map by_link links.items) }
{
    let mut reasons = VecDeque::new(alloc);
    if links.is_empty() {
        return Ok(reasons);
    }
    for link in links {
        reasons.push_back(Reason::Back(link))?;
    }
    Ok(reasons)
}

fn as_rules(alloc: Global, rules: Vec<Rule>) -> Result<VecDeque<Reason>, OutOfMemory>
    ensures { IfOk result (λ q. q.items ≡ map by_rule rules.items) }
{
    let mut reasons = VecDeque::new(alloc);
    for rule in rules {
        reasons.push_back(Reason::Step(rule))?;
    }
    Ok(reasons)
}

impl Rules for SeparationSearch<'_> {
    ghost use Rattle.proof_search.specs.Moves.{calculus_in, occurs_in, allows_in};

    type Judgement = Judgement;

    type Reason = Reason;

    ghost calculus = { calculus_in };

    ghost occurs = { occurs_in };

    ghost allows = { allows_in };
}

impl Logic for SeparationSearch<'_> {
    fn positions(&self, alloc: Global, judgement: &Judgement) -> Result<Vec<u8>, OutOfMemory> {
        logics::Logic::positions(&self.logic, alloc, judgement)
    }

    fn effect(
        &self,
        alloc: Global,
        made: &[MadeNode<Judgement, Reason>],
        goal: &OpenGoal<Judgement>,
        reason: &Reason,
    ) -> Result<Option<Effect<Judgement>>, OutOfMemory> {
        effect_of(alloc, &self.logic, made, goal, reason)
    }
}

impl Strategy for SeparationSearch<'_> {
    type RuleCursor = RuleList;

    fn offers(
        &self,
        alloc: Global,
        made: &[MadeNode<Judgement, Reason>],
        goal: &OpenGoal<Judgement>,
    ) -> Result<Offers<Reason, RuleList>, OutOfMemory> {
        let SeparationLogic { defs, program } = self.logic;
        let offered = offers_of(alloc, defs, program, made, goal)?;
        Ok(Offers {
            links: as_links(alloc, offered.links)?,
            rules: RuleList {
                rules: as_rules(alloc, offered.rules)?,
            },
        })
    }

    fn offers_within(
        &self,
        alloc: Global,
        made: &[MadeNode<Judgement, Reason>],
        goal: &OpenGoal<Judgement>,
        most: usize,
    ) -> Result<Offers<Reason, RuleList>, OutOfMemory> {
        if most > 0 {
            let offers = self.offers(alloc, made, goal)?;
            return Ok(offers);
        }
        let SeparationLogic { defs, program } = self.logic;
        let offered = closing_offers(alloc, defs, program, made, goal)?;
        Ok(Offers {
            links: as_links(alloc, offered.links)?,
            rules: RuleList {
                rules: as_rules(alloc, offered.rules)?,
            },
        })
    }
}
