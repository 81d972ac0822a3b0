// What a search is over.
use cyc_basics::memory::OutOfMemory;
use goto_lang::Program;
use heap_formula::{Judgement, Premise, Rule, RuleError};
use pred_defs::Defs;
use rule_book::{premises, variables_of};
use std::alloc::Global;

/// The definitions and the program that a draft is over.
#[derive(Clone, Copy)]
pub struct Setting<'a> {
    pub alloc: Global,
    pub defs: &'a Defs,
    pub program: &'a Program,
}

impl Setting<'_> {
    /// How many variables of the judgement are the program's.
    pub fn variables(&self, judgement: &Judgement) -> u16 {
        variables_of(self.program, judgement)
    }

    /// The premises of a rule, where it has no fault.
    pub fn premises(
        &self,
        judgement: &Judgement,
        rule: &Rule,
    ) -> Result<Option<Vec<Premise>>, OutOfMemory> {
        match premises(self.alloc, self.defs, self.program, judgement, rule) {
            Ok(premises) => Ok(Some(premises)),
            Err(RuleError::Fault(_)) => Ok(None),
            Err(RuleError::OutOfMemory) => Err(OutOfMemory),
        }
    }

    /// Whether the rule has no fault.
    pub fn is_applicable(&self, judgement: &Judgement, rule: &Rule) -> Result<bool, OutOfMemory> {
        let premises = self.premises(judgement, rule)?;
        Ok(premises.is_some())
    }
}
