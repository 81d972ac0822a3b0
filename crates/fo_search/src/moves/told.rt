// The rules that come where no link is admitted, told one by one.
ghost use Rattle.std.specs.Prelude.{◌≤◌, length};
ghost use Rattle.cyc_basics.specs.declared.limits.TheConstants.{MOST_LEFT, MOST_RIGHT};

use crate::moves::rights::{CaseLeft, LeftPlace, next_of_cases, next_unfold};
use cyc_basics::memory::OutOfMemory;
use derivations::search::Cursor;
use fo_formula::{FoRule, FoSequent, FoTheory, Term};
use std::alloc::Global;
use std::collections::VecDeque;

/// The rules that come where no link is admitted and that leave few premises: those that are left. A case of an atom on
/// the right is at work, others come behind it, and Unfold at some places comes last.
#[derive(Drop)]
pub struct RulesAfter<'a> {
    pub(crate) theory: &'a FoTheory,
    pub(crate) sequent: FoSequent,
    pub(crate) values: Vec<Term>,
    pub(crate) most: usize,
    pub(crate) current: Option<CaseLeft<'a>>,
    pub(crate) cases: VecDeque<CaseLeft<'a>>,
    pub(crate) unfolds: VecDeque<u32>,
    ghost left_fits: { length sequent.left ≤ MOST_LEFT },
    ghost right_fits: { length sequent.right ≤ MOST_RIGHT },
}

impl Cursor<FoRule> for RulesAfter<'_> {
    ghost use Rattle.fo_search.specs.Told.{rules_left};

    ghost left = { rules_left };

    fn next(&mut self, alloc: Global) -> Result<Option<FoRule>, OutOfMemory> {
        let at = LeftPlace {
            theory: self.theory,
            sequent: &self.sequent,
            values: &self.values,
            most: self.most,
        };
        if let Some(rule) = next_of_cases(alloc, &at, &mut self.current, &mut self.cases)? {
            return Ok(Some(rule));
        }
        next_unfold(alloc, &at, &mut self.unfolds)
    }
}
