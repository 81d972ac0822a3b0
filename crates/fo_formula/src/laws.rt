// Laws of the definitions. Each function is a law, and does nothing.
ghost use Rattle.std.specs.Prelude.{◌≡◌, ◌↔◌, ℕ, suc, List, ◌++◌};
ghost use Rattle.heap_formula.specs.Words.{OneOf};
ghost use Rattle.heap_formula.specs.Meaning.{Stages};
ghost use Rattle.fo_formula.specs.Words.{Word, AreTerms};
ghost use Rattle.fo_formula.specs.Meaning.{CaseHolds, cases_of, at_stage, least};
ghost use Rattle.fo_formula.specs.Validity.{SequentHolds, HoldsAt};
ghost use Rattle.fo_formula.specs.declared.sequents.FoSequent.{FoSequent};
ghost use Rattle.fo_formula.specs.declared.theory.FoTheory.{FoTheory};

/// A word is read as terms in one way (Łukasiewicz 1929): of two words that begin with as many terms, and are one,
/// these terms and the rests are one.
pub fn terms_are_read_in_one_way()
    ensures { (n : ℕ) (a c b d : Word) → AreTerms n a → AreTerms n c → a ++ b ≡ c ++ d → (a ≡ c) × (b ≡ d) }
{}

/// What holds at a stage holds at the next.
pub fn stages_rise()
    ensures { (t : FoTheory) (n p : ℕ) (vs : List Word) → at_stage t n p vs → at_stage t (suc n) p vs }
{}

/// A predicate holds exactly where one of its cases does.
pub fn cases_close()
    ensures { (t : FoTheory) (p : ℕ) (vs : List Word)
        → least t p vs ↔ OneOf (CaseHolds t (least t) vs) (cases_of t.definitions p) }
{}

/// A sequent holds exactly where it holds at all stages.
pub fn holds_at_all_stages()
    ensures { (t : FoTheory) (s : FoSequent) → SequentHolds t s ↔ ((stages : Stages) → HoldsAt t stages s) }
{}
