// A law of proofs. The function does nothing.
ghost use Rattle.fo_formula.specs.declared.nodes.FoFile.{FoFile};
ghost use Rattle.fo_logic.specs.Files.{IsFoProof};
ghost use Rattle.fo_logic.specs.Verdicts.{IsCorrect, RootHolds};

/// The sequent of node 0 of a correct proof holds in every valuation (Brotherston and Simpson 2011).
pub fn correct_proofs_hold()
    ensures { (f : FoFile) → IsFoProof f → IsCorrect f → RootHolds f }
{}
