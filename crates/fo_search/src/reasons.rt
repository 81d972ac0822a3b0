// The rules that a goal is offered, as reasons, told one by one.
use crate::moves::RulesAfter;
use cyc_basics::memory::OutOfMemory;
use derivations::search::Cursor;
use fo_formula::FoReason;
use std::alloc::Global;
use std::collections::VecDeque;

/// The rules that a goal is offered: those that go before links, which are few and made already, or else those that
/// come where no link is admitted.
#[derive(Drop)]
pub enum RuleReasons<'a> {
    Before(VecDeque<FoReason>),
    After(RulesAfter<'a>),
}

impl Cursor<FoReason> for RuleReasons<'_> {
    ghost use Rattle.fo_search.specs.Reasons.{reasons_left};

    ghost left = { reasons_left };

    fn next(&mut self, alloc: Global) -> Result<Option<FoReason>, OutOfMemory> {
        match self {
            RuleReasons::Before(rules) => Ok(rules.pop_front()),
            RuleReasons::After(rules) => match rules.next(alloc)? {
                None => Ok(None),
                Some(rule) => Ok(Some(FoReason::Rule(rule))),
            },
        }
    }
}
