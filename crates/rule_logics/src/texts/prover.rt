// The command `prove`.
ghost use Rattle.std.specs.Prelude.{◌<◌};

use crate::RuleLogic;
use crate::texts::answers::answer_to_problem;
use crate::texts::reading::read_problem;
use crate::texts::text::RuleText;
use cyc_basics::memory::OutOfMemory;
use cyc_runs::{Answer, Tool, answer_to_fault};
use std::alloc::Global;

/// The command `prove`, with the greatest depth of a proof.
#[derive(Drop)]
pub struct Prover<L, X> {
    pub logic: L,
    pub texts: X,
    pub depth: u32,
    ghost bounded: { depth < 4294967295 },
}

impl<L: RuleLogic, X: RuleText<Judgement = L::Judgement, Rule = L::Rule, Fault = L::Fault>> Tool
    for Prover<L, X> {
    ghost use Rattle.rule_logics.specs.Answers.{IsProvedWithin};

    ghost answers = { λ p. IsProvedWithin (L.rules p.logic) (X.text p.texts) (L.holds p.logic) p.depth };

    fn answer(&self, alloc: Global, input: &[u8]) -> Result<Answer, OutOfMemory> {
        match read_problem(alloc, &self.texts, input) {
            Ok(goal) => answer_to_problem(alloc, &self.logic, &self.texts, &goal, self.depth),
            Err(fault) => answer_to_fault(alloc, fault),
        }
    }
}
