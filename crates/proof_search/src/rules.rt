// The rules that a goal is offered, as a search is told them.
use cyc_basics::memory::OutOfMemory;
use derivations::search::Cursor;
use heap_formula::Reason;
use std::alloc::Global;
use std::collections::VecDeque;

/// The rules that a goal is offered, in order: a list that is made already.
#[derive(Drop)]
pub struct RuleList {
    pub rules: VecDeque<Reason>,
}

impl Cursor<Reason> for RuleList {
    ghost left = { λ l. l.rules.items };

    fn next(&mut self, _alloc: Global) -> Result<Option<Reason>, OutOfMemory> {
        Ok(self.rules.pop_front())
    }
}
