// The rules for the next goal.
ghost use Rattle.std.specs.Prelude.{◌≡◌, []};
ghost use Rattle.derivations.specs.Rules.{rules_in};

use crate::search::{Cursor, Offers};
use cyc_basics::memory::OutOfMemory;
use std::alloc::Global;
use std::collections::VecDeque;

/// The rules that the next goal is offered, told one by one; none where no goal is open.
#[derive(Drop)]
pub enum NextRules<C> {
    NoGoal,
    At(C),
}

impl<R: Drop, C: Cursor<R>> Cursor<R> for NextRules<C> {
    ghost left = { rules_in C.left };

    fn next(&mut self, alloc: Global) -> Result<Option<R>, OutOfMemory> {
        match self {
            NextRules::NoGoal => Ok(None),
            NextRules::At(rules) => rules.next(alloc),
        }
    }
}

/// What is offered where no goal is open: nothing.
pub fn none_offered<R, C>(alloc: Global) -> Offers<R, NextRules<C>>
    ensures links { result.links.items ≡ [] }
    ensures rules { result.rules ≡ NextRules.NoGoal }
{
    Offers {
        links: VecDeque::new(alloc),
        rules: NextRules::NoGoal,
    }
}
