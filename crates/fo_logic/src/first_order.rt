// First-order logic with inductive definitions as a logic.
ghost use Rattle.std.specs.Prelude.{◌≡◌, ◌≤◌, length, IfOk, map};
ghost use Rattle.logics.specs.Answers.{IsPremises, IsPairsBack};
ghost use Rattle.proof_graph.specs.Traces.{trace_pairs_of};
ghost use Rattle.fo_formula.specs.declared.nodes.FoReason.TheVariants.{Rule, Link};
ghost use Rattle.fo_formula.specs.Small.{IsSmallSequent};
ghost use Rattle.fo_logic.specs.FirstOrder.{predicate_places, traced as traced_premise, rule_premises, companion_pairs};
ghost use Rattle.fo_logic.specs.FirstOrder.{target_of};

use cyc_basics::limits::MOST_LEFT;
use cyc_basics::memory::OutOfMemory;
use fo_formula::table::{FoFault, FoPremise, FoRuleError};
use fo_formula::{FoAtom, FoLink, FoReason, FoRule, FoSequent, FoTheory, Pair};
use fo_rules::parts::is_one_sequent;
use fo_rules::{premises, premises_by_link};
use logics::{Logic, Refused, Subgoal, TracePairs};
use std::alloc::Global;

/// First-order logic over the definitions of a theory (Brotherston and Simpson 2011).
#[derive(Clone, Copy)]
pub struct FirstOrder<'a> {
    pub theory: &'a FoTheory,
}

/// The places of the predicate atoms.
fn predicate_positions(alloc: Global, atoms: &[FoAtom]) -> Result<Vec<u8>, OutOfMemory>
    requires { length atoms.now ≤ MOST_LEFT }
    ensures { IfOk result (λ v. v.items ≡ predicate_places 0 atoms.now) }
{
    let mut positions = Vec::new(alloc);
    for (place, atom) in atoms.iter().enumerate() {
        if let FoAtom::Predicate { .. } = atom {
            positions.push(place as u8)?;
        }
    }
    Ok(positions)
}

/// Pairs as the automata have them, in the same order.
fn traced_pairs(alloc: Global, pairs: &[Pair]) -> Result<TracePairs, OutOfMemory>
    ensures { IfOk result (λ p. p ≡ trace_pairs_of pairs.now) }
{
    let mut triples = Vec::new(alloc);
    for pair in pairs {
        triples.push((pair.old, pair.new, pair.progress))?;
    }
    Ok(TracePairs::from_vec(triples))
}

/// The premises with their pairs as the automata have them.
fn traced(alloc: Global, premises: Vec<FoPremise>) -> Result<Vec<Subgoal<FoSequent>>, OutOfMemory>
    ensures { IfOk result (λ v. v.items ≡ map traced_premise premises.items) }
{
    let mut subgoals = Vec::new(alloc);
    for premise in premises {
        let pairs = traced_pairs(alloc, premise.pairs.as_slice())?;
        let judgement = premise.sequent;
        subgoals.push(Subgoal { judgement, pairs })?;
    }
    Ok(subgoals)
}

fn target(reason: &FoReason) -> Option<u32>
    ensures { result ≡ target_of reason.now }
{
    match reason {
        FoReason::Rule(_) => None,
        FoReason::Link(link) => Some(link.to),
    }
}

/// What a rule leaves to be shown, or its first fault.
fn subgoals_of(
    alloc: Global,
    theory: &FoTheory,
    sequent: &FoSequent,
    rule: &FoRule,
) -> Result<Vec<Subgoal<FoSequent>>, Refused<FoFault>>
    requires { IsSmallSequent sequent.now }
    ensures { IsPremises result (rule_premises theory.now sequent.now (Rule rule.now)) }
{
    match premises(alloc, theory, sequent, rule) {
        Ok(premises) => match traced(alloc, premises) {
            Ok(subgoals) => Ok(subgoals),
            Err(_) => Err(Refused::OutOfMemory),
        },
        Err(FoRuleError::Fault(fault)) => Err(Refused::Fault(fault)),
        Err(FoRuleError::OutOfMemory) => Err(Refused::OutOfMemory),
    }
}

/// The pairs to the companion of a link, or the link's first fault.
fn pairs_of_link(
    alloc: Global,
    bud: &FoSequent,
    link: &FoLink,
    companion: &FoSequent,
) -> Result<TracePairs, Refused<FoFault>>
    requires bud { IsSmallSequent bud.now }
    requires companion { IsSmallSequent companion.now }
    ensures { IsPairsBack result (companion_pairs bud.now (Link link.now) companion.now) }
{
    match premises_by_link(alloc, bud, companion, link) {
        Ok(premises) => match traced_pairs(alloc, premises[0].pairs.as_slice()) {
            Ok(pairs) => Ok(pairs),
            Err(_) => Err(Refused::OutOfMemory),
        },
        Err(FoRuleError::Fault(fault)) => Err(Refused::Fault(fault)),
        Err(FoRuleError::OutOfMemory) => Err(Refused::OutOfMemory),
    }
}

impl Logic for FirstOrder<'_> {
    ghost use Rattle.fo_logic.specs.Instance.{logic_in, occurs_in, given_in, holds_in};
    ghost use Rattle.fo_logic.specs.LogicLaws.{in_order, locally_sound};

    type Judgement = FoSequent;

    type Reason = FoReason;

    type Fault = FoFault;

    ghost logic = { logic_in };

    ghost occurs = { occurs_in };

    ghost allows = { given_in };

    ghost holds = { holds_in };

    fn positions(&self, alloc: Global, sequent: &FoSequent) -> Result<Vec<u8>, OutOfMemory> {
        predicate_positions(alloc, sequent.left.as_slice())
    }

    fn is_same(&self, a: &FoSequent, b: &FoSequent) -> bool {
        is_one_sequent(a, b)
    }

    fn target(&self, reason: &FoReason) -> Option<u32> {
        target(reason)
    }

    fn premises(
        &self,
        alloc: Global,
        sequent: &FoSequent,
        reason: &FoReason,
    ) -> Result<Vec<Subgoal<FoSequent>>, Refused<FoFault>> {
        match reason {
            FoReason::Rule(rule) => subgoals_of(alloc, self.theory, sequent, rule),
            FoReason::Link(_) => Err(Refused::Fault(FoFault::NoSuchNode)),
        }
    }

    fn pairs_back(
        &self,
        alloc: Global,
        bud: &FoSequent,
        reason: &FoReason,
        companion: &FoSequent,
    ) -> Result<TracePairs, Refused<FoFault>> {
        match reason {
            FoReason::Rule(_) => Err(Refused::Fault(FoFault::NoSuchNode)),
            FoReason::Link(link) => pairs_of_link(alloc, bud, link, companion),
        }
    }

    fn no_such_node(&self) -> FoFault {
        FoFault::NoSuchNode
    }

    fn premise_count(&self) -> FoFault {
        FoFault::PremiseCount
    }

    fn premise_differs(&self, place: u32) -> FoFault {
        FoFault::PremiseDiffers(place)
    }

    ghost in_order = { λ l. in_order l.theory.now };

    ghost sound = { λ l. locally_sound l.theory.now };
}
