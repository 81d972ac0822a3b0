//! What a search finds is a correct proof that a file may hold. The functions here do nothing; their clauses are laws.

mod offers;

ghost use Rattle.std.specs.Prelude.{◌≡◌, ℕ, List};
ghost use Rattle.heap_formula.specs.declared.judgements.Judgement.{Judgement};
ghost use Rattle.heap_formula.specs.declared.proof_rules.Reason.{Reason};
ghost use Rattle.derivations.specs.System.{search_of, IsFound};
ghost use Rattle.search_moves.specs.Trying.{Theory};
ghost use Rattle.proof_search.specs.Calculus.{search_system};
ghost use Rattle.proof_search.specs.Found.{MakesProof};
ghost use Rattle.proof_search.specs.Problems.{IsWithinLimits};

pub use offers::{
    links_stay_within, offered_links_have_no_fault, offered_rules_have_premises, rules_stay_within,
};

/// The reasons that are found make nodes of which every one is right and every lasso progresses, with at most 200,000
/// product states; node 0 has the goal.
pub fn found_is_proof()
    ensures { (t : Theory) (goal : Judgement) (most depth : ℕ) (d : List Reason) → IsWithinLimits t goal
        → search_of (search_system t goal) most depth ≡ IsFound d → MakesProof t goal d }
{}
