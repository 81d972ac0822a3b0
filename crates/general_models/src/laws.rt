// A law of the least meaning. The function does nothing.
ghost use Rattle.std.specs.Prelude.{◌≡◌, ℕ, List, map};
ghost use Rattle.heap_formula.specs.Definitions.{Definition};
ghost use Rattle.heap_formula.specs.Cells.{Cells};
ghost use Rattle.heap_formula.specs.Meaning.{at_stage};
ghost use Rattle.general_models.specs.Ranges.{Leaves};

/// Where two values change places, or several pairs of them, and neither 0 nor a number of the heap is among them, a
/// predicate that holds at a stage holds of the changed arguments there.
pub fn permutations_keep_stages()
    ensures { (move : ℕ → ℕ) → ((x : ℕ) → move (move x) ≡ x) → (h : Cells) → Leaves move h
        → (ds : List Definition) (n p : ℕ) (vs : List ℕ) → at_stage ds n p vs h → at_stage ds n p (map move vs) h }
{}
