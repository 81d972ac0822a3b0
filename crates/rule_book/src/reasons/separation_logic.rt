// Separation logic with inductive definitions as a logic.
ghost use Rattle.std.specs.Prelude.{◌≡◌, IfOk, map};
ghost use Rattle.logics.specs.Answers.{IsPremises, IsPairsBack};
ghost use Rattle.proof_graph.specs.Traces.{trace_pairs_of};
ghost use Rattle.rule_table.specs.Judgements.{same_judgement};
ghost use Rattle.heap_formula.specs.declared.proof_rules.Reason.TheVariants.{Step, Back};
ghost use Rattle.rule_book.specs.SeparationLogic.{traced as traced_premise, rule_premises, companion_pairs, target_of};

use crate::premises;
use crate::reasons::links::premises_by_link;
use cyc_basics::memory::OutOfMemory;
use goto_lang::Program;
use heap_formula::{
    Judgement, Link, Pair, Premise, Reason, Rule, RuleError, RuleFault, is_same_judgement,
};
use logics::{Logic, Refused, Subgoal, TracePairs};
use pred_defs::Defs;
use proof_graph::predicate_positions;
use std::alloc::Global;

/// Separation logic over inductive definitions and a program (Brotherston, Bornat and Calcagno 2008).
#[derive(Clone, Copy)]
pub struct SeparationLogic<'a> {
    pub defs: &'a Defs,
    pub program: &'a Program,
}

/// The pairs of a premise as the automata have them, in the same order.
pub fn traced_pairs(alloc: Global, pairs: &[Pair]) -> Result<TracePairs, OutOfMemory>
    ensures { IfOk result (λ p. p ≡ trace_pairs_of pairs.now) }
{
    let mut triples = Vec::new(alloc);
    for pair in pairs {
        triples.push((pair.old, pair.new, pair.progress))?;
    }
    Ok(TracePairs::from_vec(triples))
}

/// The premises with their pairs as the automata have them.
fn traced(alloc: Global, premises: Vec<Premise>) -> Result<Vec<Subgoal<Judgement>>, OutOfMemory>
    ensures { IfOk result (λ v. v.items ≡ map traced_premise premises.items) }
{
    let mut subgoals = Vec::new(alloc);
    for premise in premises {
        let pairs = traced_pairs(alloc, premise.pairs.as_slice())?;
        let judgement = premise.judgement;
        subgoals.push(Subgoal { judgement, pairs })?;
    }
    Ok(subgoals)
}

fn is_same(a: &Judgement, b: &Judgement) -> bool
    ensures { result ≡ same_judgement a.now b.now }
{
    is_same_judgement(a, b)
}

fn target(reason: &Reason) -> Option<u32>
    ensures { result ≡ target_of reason.now }
{
    match reason {
        Reason::Step(_) => None,
        Reason::Back(link) => Some(link.target),
    }
}

/// What a rule leaves to be shown, or its first fault.
fn subgoals_of(
    alloc: Global,
    logic: &SeparationLogic<'_>,
    judgement: &Judgement,
    rule: &Rule,
) -> Result<Vec<Subgoal<Judgement>>, Refused<RuleFault>>
    ensures { IsPremises result
        (rule_premises logic.now.defs.now.most logic.now.defs.now.list logic.now.program.now judgement.now
        (Step rule.now)) }
{
    match premises(alloc, logic.defs, logic.program, judgement, rule) {
        Ok(premises) => match traced(alloc, premises) {
            Ok(subgoals) => Ok(subgoals),
            Err(_) => Err(Refused::OutOfMemory),
        },
        Err(RuleError::Fault(fault)) => Err(Refused::Fault(fault)),
        Err(RuleError::OutOfMemory) => Err(Refused::OutOfMemory),
    }
}

/// The pairs to the companion of a link, or the link's first fault.
fn pairs_of_link(
    alloc: Global,
    program: &Program,
    bud: &Judgement,
    link: &Link,
    companion: &Judgement,
) -> Result<TracePairs, Refused<RuleFault>>
    ensures { IsPairsBack result (companion_pairs program.now bud.now (Back link.now) companion.now) }
{
    match premises_by_link(alloc, program, bud, companion, link) {
        Ok(premises) => match traced_pairs(alloc, premises[0].pairs.as_slice()) {
            Ok(pairs) => Ok(pairs),
            Err(_) => Err(Refused::OutOfMemory),
        },
        Err(RuleError::Fault(fault)) => Err(Refused::Fault(fault)),
        Err(RuleError::OutOfMemory) => Err(Refused::OutOfMemory),
    }
}

impl Logic for SeparationLogic<'_> {
    ghost use Rattle.rule_book.specs.Instance.{logic_in, occurs_in, given_in, holds_in};
    ghost use Rattle.rule_book.specs.LogicLaws.{in_order, locally_sound};

    type Judgement = Judgement;

    type Reason = Reason;

    type Fault = RuleFault;

    ghost logic = { logic_in };

    ghost occurs = { occurs_in };

    ghost allows = { given_in };

    ghost holds = { holds_in };

    fn positions(&self, alloc: Global, judgement: &Judgement) -> Result<Vec<u8>, OutOfMemory> {
        Ok(predicate_positions(alloc, judgement)?)
    }

    fn is_same(&self, a: &Judgement, b: &Judgement) -> bool {
        is_same(a, b)
    }

    fn target(&self, reason: &Reason) -> Option<u32> {
        target(reason)
    }

    fn premises(
        &self,
        alloc: Global,
        judgement: &Judgement,
        reason: &Reason,
    ) -> Result<Vec<Subgoal<Judgement>>, Refused<RuleFault>> {
        match reason {
            Reason::Step(rule) => subgoals_of(alloc, self, judgement, rule),
            Reason::Back(_) => Err(Refused::Fault(RuleFault::NoSuchNode)),
        }
    }

    fn pairs_back(
        &self,
        alloc: Global,
        bud: &Judgement,
        reason: &Reason,
        companion: &Judgement,
    ) -> Result<TracePairs, Refused<RuleFault>> {
        match reason {
            Reason::Step(_) => Err(Refused::Fault(RuleFault::NoSuchNode)),
            Reason::Back(link) => pairs_of_link(alloc, self.program, bud, link, companion),
        }
    }

    fn no_such_node(&self) -> RuleFault {
        RuleFault::NoSuchNode
    }

    fn premise_count(&self) -> RuleFault {
        RuleFault::PremiseCount
    }

    fn premise_differs(&self, place: u32) -> RuleFault {
        RuleFault::PremiseDiffers(place)
    }

    ghost in_order = { λ l. in_order l.defs.now.most l.defs.now.list l.program.now };

    ghost sound = { λ l. locally_sound l.defs.now.most l.defs.now.list l.program.now };
}
