//! The search for proofs in first-order logic with inductive definitions as a calculus with offers (Brotherston and
//! Simpson 2011). The function here does nothing; its clause is a law.

ghost use Rattle.fo_formula.specs.declared.theory.FoTheory.{FoTheory};
ghost use Rattle.fo_logic.specs.Limits.{IsReasonWithin};
ghost use Rattle.derivations.specs.Fair.{IsFair};
ghost use Rattle.fo_search.specs.Calculus.{calculus_of};
ghost use Rattle.fo_search.specs.Occurring.{MayOccur};

/// The calculus is in order for sequents and reasons within the limits. So the laws of tableaux are so of it.
pub fn first_order_is_fair()
    ensures { (t : FoTheory) → IsFair (calculus_of t) (MayOccur t) (IsReasonWithin t) }
{}
