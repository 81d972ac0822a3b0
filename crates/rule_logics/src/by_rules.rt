// A logic of rules as a logic.
ghost use Rattle.std.specs.Prelude.{◌≡◌, ◌++◌, map, IfOk, OnOk};
ghost use Rattle.rule_logics.specs.Logic.{one_if, positions_of, is_position, kept_pairs, kept, to_itself};

use crate::reasons::{NodeFault, Reason};
use crate::rules::RuleLogic;
use cyc_basics::memory::OutOfMemory;
use logics::{Logic, Refused, Subgoal, TracePairs};
use std::alloc::Global;

/// How many positions traces may follow, from 0 on.
const FOLLOWED_POSITIONS: u8 = 32;

/// A logic of rules, with links to nodes that state the same.
#[derive(Drop)]
pub struct ByRules<T> {
    pub logic: T,
}

fn push_if(positions: &mut Vec<u8>, position: u8, test: bool) -> Result<(), OutOfMemory>
    ensures { OnOk result (positions.new.items ≡ positions.old.items ++ one_if test position) }
{
    if test {
        positions.push(position)?;
    }
    Ok(())
}

/// The positions that traces follow.
fn positions_of<T: RuleLogic>(
    alloc: Global,
    logic: &T,
    judgement: &T::Judgement,
) -> Result<Vec<u8>, OutOfMemory>
    ensures { IfOk result (λ v. v.items ≡ positions_of (T.rules logic.now) judgement.now) }
{
    let mut positions = Vec::new(alloc);
    for position in 0..FOLLOWED_POSITIONS {
        let follows = logic.is_followed(judgement, position);
        push_if(&mut positions, position, follows)?;
    }
    Ok(positions)
}

fn is_position<T: RuleLogic>(logic: &T, judgement: &T::Judgement, position: u8) -> bool
    ensures { result ≡ is_position (T.rules logic.now) judgement.now position }
{
    position < FOLLOWED_POSITIONS && logic.is_followed(judgement, position)
}

/// The pairs whose positions traces follow.
fn kept_pairs<T: RuleLogic>(
    alloc: Global,
    logic: &T,
    judgement: &T::Judgement,
    premise: &T::Judgement,
    pairs: &[(u8, u8, bool)],
) -> Result<TracePairs, OutOfMemory>
    ensures { IfOk result (λ p. p ≡ kept_pairs (T.rules logic.now) judgement.now premise.now pairs.now) }
{
    let mut kept = Vec::new(alloc);
    for pair in pairs {
        if is_position(logic, judgement, pair.0) && is_position(logic, premise, pair.1) {
            kept.push(*pair)?;
        }
    }
    Ok(TracePairs::from_vec(kept))
}

/// The premises, each with the pairs that are kept.
fn kept_premises<T: RuleLogic>(
    alloc: Global,
    logic: &T,
    judgement: &T::Judgement,
    premises: Vec<Subgoal<T::Judgement>>,
) -> Result<Vec<Subgoal<T::Judgement>>, OutOfMemory>
    ensures { IfOk result (λ v. v.items ≡ map (kept (T.rules logic.now) judgement.now) premises.items) }
{
    let mut subgoals = Vec::new(alloc);
    for premise in premises {
        let Subgoal {
            judgement: stated,
            pairs,
        } = premise;
        let pairs = kept_pairs(alloc, logic, judgement, &stated, pairs.as_slice())?;
        let judgement = stated;
        subgoals.push(Subgoal { judgement, pairs })?;
    }
    Ok(subgoals)
}

/// The pairs of a judgement with itself.
fn to_itself(alloc: Global, positions: &[u8]) -> Result<TracePairs, OutOfMemory>
    ensures { IfOk result (λ p. p ≡ to_itself positions.now) }
{
    let mut pairs = Vec::new(alloc);
    for position in positions {
        pairs.push((*position, *position, false))?;
    }
    Ok(TracePairs::from_vec(pairs))
}

fn pairs_to_itself<T: RuleLogic>(
    alloc: Global,
    logic: &T,
    judgement: &T::Judgement,
) -> Result<TracePairs, OutOfMemory>
    ensures { IfOk result (λ p. p ≡ to_itself (positions_of (T.rules logic.now) judgement.now)) }
{
    let positions = positions_of(alloc, logic, judgement)?;
    to_itself(alloc, positions.as_slice())
}

impl<T: RuleLogic> Logic for ByRules<T> {
    ghost use Rattle.rule_logics.specs.Logic.{logic_by};
    ghost use Rattle.rule_logics.specs.Laws.{in_order, locally_sound};

    type Judgement = T::Judgement;

    type Reason = Reason<T::Rule>;

    type Fault = NodeFault<T::Fault>;

    ghost logic = { λ l. logic_by (T.rules l.logic) };

    ghost occurs = { λ _ _. Unit {0} };

    ghost allows = { λ _ _ _. Unit {0} };

    ghost holds = { λ l. T.holds l.logic };

    fn positions(&self, alloc: Global, judgement: &T::Judgement) -> Result<Vec<u8>, OutOfMemory> {
        positions_of(alloc, &self.logic, judgement)
    }

    fn is_same(&self, a: &T::Judgement, b: &T::Judgement) -> bool {
        self.logic.is_same(a, b)
    }

    fn target(&self, reason: &Reason<T::Rule>) -> Option<u32> {
        match reason {
            Reason::Rule(_) => None,
            Reason::Link(target) => Some(*target),
        }
    }

    fn premises(
        &self,
        alloc: Global,
        judgement: &T::Judgement,
        reason: &Reason<T::Rule>,
    ) -> Result<Vec<Subgoal<T::Judgement>>, Refused<NodeFault<T::Fault>>> {
        let Reason::Rule(rule) = reason else {
            return Err(Refused::Fault(NodeFault::NoSuchNode));
        };
        match self.logic.premises(alloc, judgement, rule) {
            Ok(Ok(premises)) => match kept_premises(alloc, &self.logic, judgement, premises) {
                Ok(kept) => Ok(kept),
                Err(_) => Err(Refused::OutOfMemory),
            },
            Ok(Err(fault)) => Err(Refused::Fault(NodeFault::Rule(fault))),
            Err(_) => Err(Refused::OutOfMemory),
        }
    }

    fn pairs_back(
        &self,
        alloc: Global,
        bud: &T::Judgement,
        reason: &Reason<T::Rule>,
        companion: &T::Judgement,
    ) -> Result<TracePairs, Refused<NodeFault<T::Fault>>> {
        match reason {
            Reason::Rule(_) => Err(Refused::Fault(NodeFault::NoSuchNode)),
            Reason::Link(_) if !self.logic.is_same(bud, companion) => {
                Err(Refused::Fault(NodeFault::LinkDiffers))
            }
            Reason::Link(_) => match pairs_to_itself(alloc, &self.logic, bud) {
                Ok(pairs) => Ok(pairs),
                Err(_) => Err(Refused::OutOfMemory),
            },
        }
    }

    fn no_such_node(&self) -> NodeFault<T::Fault> {
        NodeFault::NoSuchNode
    }

    fn premise_count(&self) -> NodeFault<T::Fault> {
        NodeFault::PremiseCount
    }

    fn premise_differs(&self, place: u32) -> NodeFault<T::Fault> {
        NodeFault::PremiseDiffers(place)
    }

    ghost in_order = { λ l. in_order (T.rules l.logic) (T.laws l.logic) };

    ghost sound = { λ l. locally_sound (T.rules l.logic) (T.laws l.logic) (T.holds l.logic) (T.sound l.logic) };
}
