// Meanings of the predicates that are closed under every case, against the least one.
ghost use Rattle.std.specs.Prelude.{ℕ, List, ◌≡◌, length};
ghost use Rattle.heap_formula.specs.Definitions.{Definition};
ghost use Rattle.heap_formula.specs.Cells.{Cells};
ghost use Rattle.heap_formula.specs.Meaning.{least, IsClosed};

/// A meaning of the predicates of some definitions that is closed under every case.
pub trait ClosedFamily {
    /// The definitions.
    ghost definitions: { Self → List Definition };

    /// The predicate holds of the values and the heap.
    ghost means: { Self → ℕ → List ℕ → Cells → Type 0 };

    /// How many definitions there are.
    fn count(&self) -> u32
        ensures { result ≡ length (definitions self.now) };

    /// Where some case holds, its predicates having this meaning, so does the predicate.
    ghost closed: { (family : Self) → IsClosed (definitions family) (means family) };
}

/// Every meaning that is closed under every case contains the least one (Brotherston and Simpson 2011).
pub fn least_is_below<F: ClosedFamily>(_family: &F)
    ensures { (p : ℕ) (vs : List ℕ) (h : Cells) → least (F.definitions _family.now) p vs h
        → F.means _family.now p vs h }
{}
