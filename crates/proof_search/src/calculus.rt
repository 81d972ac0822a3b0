//! The search for proofs in separation logic as a calculus with offers. The function here does nothing; its clause is a
//! law.

ghost use Rattle.heap_formula.specs.declared.judgements.Judgement.{Judgement};
ghost use Rattle.derivations.specs.Fair.{IsFair};
ghost use Rattle.search_moves.specs.Trying.{Theory};
ghost use Rattle.proof_search.specs.Calculus.{calculus_of};
ghost use Rattle.proof_search.specs.Problems.{IsWithinLimits, MayGive};

/// The calculus is in order for judgements and reasons within the limits. So the laws of tableaux are so of it.
pub fn separation_logic_is_fair()
    ensures { (t : Theory) → IsFair (calculus_of t) (IsWithinLimits t) (MayGive t) }
{}
