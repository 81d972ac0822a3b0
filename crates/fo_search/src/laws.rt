//! What a search in first-order logic finds is a correct proof that a file may hold. The function here does nothing;
//! its clause is a law.

ghost use Rattle.std.specs.Prelude.{◌≡◌, ℕ, List};
ghost use Rattle.fo_formula.specs.declared.nodes.FoReason.{FoReason};
ghost use Rattle.fo_formula.specs.declared.sequents.FoSequent.{FoSequent};
ghost use Rattle.fo_formula.specs.declared.theory.FoTheory.{FoTheory};
ghost use Rattle.derivations.specs.System.{search_of, IsFound};
ghost use Rattle.fo_search.specs.Calculus.{search_system};
ghost use Rattle.fo_search.specs.Occurring.{MayOccur};
ghost use Rattle.fo_search.specs.Found.{MakesProof};

/// The reasons that are found make nodes of which every one is right and every lasso progresses, with at most 200,000
/// product states; node 0 has the goal.
pub fn found_is_proof()
    ensures { (t : FoTheory) (goal : FoSequent) (most depth : ℕ) (d : List FoReason) → MayOccur t goal
        → search_of (search_system t goal) most depth ≡ IsFound d → MakesProof t goal d }
{}
