// What a reason makes of a goal, in any logic.
ghost use Rattle.std.specs.Prelude.{◌≡◌, None, [], Some, IfOk};
ghost use Rattle.derivations.specs.Effects.{IsEffect};
ghost use Rattle.derivations.specs.Fair.{AllOccur};
ghost use Rattle.derivations.specs.Calculus.{answered, bare_calculus, edge_along, none_beside};
ghost use Rattle.derivations.specs.LogicEffects.{IsEffectWith};

use crate::Effect;
use crate::tableaux::{MadeNode, OpenGoal};
use cyc_basics::memory::OutOfMemory;
use logics::{Logic, Refused};
use std::alloc::Global;
use trace_pairs::Edge;

/// A rule leaves its premises.
fn effect_of_rule<L: Logic>(
    alloc: Global,
    logic: &L,
    judgement: &L::Judgement,
    rule: &L::Reason,
) -> Result<Option<Effect<L::Judgement>>, OutOfMemory>
    requires occurs { L.occurs logic.now judgement.now }
    requires allowed { L.allows logic.now judgement.now rule.now }
    ensures { IfOk result (IsEffectWith (answered ((L.logic logic.now).premises judgement.now rule.now)) None) }
{
    match logic.premises(alloc, judgement, rule) {
        Ok(premises) => Ok(Some(Effect {
            premises,
            back: None,
        })),
        Err(Refused::Fault(_)) => Ok(None),
        Err(Refused::OutOfMemory) => Err(OutOfMemory),
    }
}

/// A link leaves nothing, and leads back to its companion.
fn effect_of_link<L: Logic>(
    alloc: Global,
    logic: &L,
    bud: &L::Judgement,
    link: &L::Reason,
    companion: &L::Judgement,
    target: u32,
) -> Result<Option<Effect<L::Judgement>>, OutOfMemory>
    requires bud { L.occurs logic.now bud.now }
    requires companion { L.occurs logic.now companion.now }
    requires allowed { L.allows logic.now bud.now link.now }
    ensures { IfOk result (IsEffectWith
        (none_beside (edge_along target ((L.logic logic.now).pairs_back bud.now link.now companion.now)))
        (edge_along target ((L.logic logic.now).pairs_back bud.now link.now companion.now))) }
{
    match logic.pairs_back(alloc, bud, link, companion) {
        Ok(pairs) => Ok(Some(Effect {
            premises: Vec::new(alloc),
            back: Some(Edge::new(target, pairs.into_vec())),
        })),
        Err(Refused::Fault(_)) => Ok(None),
        Err(Refused::OutOfMemory) => Err(OutOfMemory),
    }
}

/// What the reason makes of a goal over the nodes made; nothing where it has a fault.
pub fn effect_of<L: Logic>(
    alloc: Global,
    logic: &L,
    made: &[MadeNode<L::Judgement, L::Reason>],
    goal: &OpenGoal<L::Judgement>,
    reason: &L::Reason,
) -> Result<Option<Effect<L::Judgement>>, OutOfMemory>
    requires occur { AllOccur (L.occurs logic.now) made.now goal.now }
    requires allowed { L.allows logic.now goal.now.premise.judgement reason.now }
    ensures { IfOk result (IsEffect (bare_calculus (L.logic logic.now)) made.now goal.now reason.now) }
{
    let judgement = &goal.premise.judgement;
    match logic.target(reason) {
        None => effect_of_rule(alloc, logic, judgement, reason),
        Some(target) => match made.get(target as usize) {
            None => Ok(None),
            Some(node) => {
                let companion = &node.goal.premise.judgement;
                effect_of_link(alloc, logic, judgement, reason, companion, target)
            }
        },
    }
}
