// A law of searches in any logic. The function does nothing.
ghost use Rattle.derivations.specs.Found.{IsSearchOf, EachIsProof};

use crate::tableaux::Rules;
use logics::Logic;

/// What a search over the rules and links of a logic finds is a proof of its goal in which no node has a fault and
/// every lasso progresses, with at most 200,000 product states, so a check accepts it.
pub fn found_is_proof<L: Logic, C: Rules<Judgement = L::Judgement, Reason = L::Reason>>(
    _logic: &L,
    _rules: &C,
)
    requires { IsSearchOf (L.logic _logic.now) (C.calculus _rules.now) (C.occurs _rules.now) (C.allows _rules.now) }
    ensures { EachIsProof (L.logic _logic.now) (C.calculus _rules.now) (C.occurs _rules.now) }
{}
