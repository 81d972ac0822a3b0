// What a problem can't say of a script.
use cyc_basics::memory::OutOfMemory;
use std::alloc::{AllocError, AllocFailed};

/// Why a problem can't say what a script asks.
#[derive(Clone, Copy, Debug, PartialEq, Eq)]
pub enum Unsupported {
    /// A case that says nothing of the heap holds of any heap.
    OpenHeap,
    /// Part of a separating conjunction says nothing of the heap.
    OpenPart,
    /// A conjunction of two formulas over one heap.
    Conjunction,
    /// A negated formula over the heap inside another formula.
    Negation,
    /// A negated quantifier inside another formula.
    Universal,
    /// A variable that no quantifier binds, or a predicate or constructor that isn't there.
    Unbound,
    /// A term that is not of the sort of its place.
    Sorts,
    /// Too many cases: more than 4,096 of a formula, more than 64 of a predicate or on the left, more than 16 on the
    /// right.
    Cases,
    /// Too many quantified variables in one case.
    Quantifiers,
    /// More than 1,024 pure atoms in one case.
    PureAtoms,
    /// More than 64 atoms over the heap in one case.
    HeapAtoms,
    /// More than eight fields of a cell, with those that tell it from the other cells.
    Fields,
    /// More than eight parameters of a predicate.
    Parameters,
    /// More than 4,096 predicates.
    Predicates,
    /// A disjunction on the left with more than eight variables.
    Disjunction,
    /// More variables than numbers.
    Variables,
}

/// Why there is no answer.
#[derive(Clone, Copy, Debug)]
pub enum Refused {
    Unsupported(Unsupported),
    OutOfMemory,
}

impl From<AllocError> for Refused {
    ghost use Rattle.script_formulas.specs.declared.cases.refused.Refused.TheVariants.{OutOfMemory as memory_wanted};
    ghost use Rattle.std.specs.Prelude.{◌≡◌};

    ghost from_gives = { λ _ e. e ≡ memory_wanted };

    fn from(_error: AllocError) -> Refused {
        Refused::OutOfMemory
    }
}

impl<T: Drop> From<AllocFailed<T>> for Refused {
    ghost use Rattle.script_formulas.specs.declared.cases.refused.Refused.TheVariants.{OutOfMemory as memory_wanted};
    ghost use Rattle.std.specs.Prelude.{◌≡◌};

    ghost from_gives = { λ _ e. e ≡ memory_wanted };

    fn from(_error: AllocFailed<T>) -> Refused {
        Refused::OutOfMemory
    }
}

impl From<OutOfMemory> for Refused {
    ghost use Rattle.script_formulas.specs.declared.cases.refused.Refused.TheVariants.{OutOfMemory as memory_wanted};
    ghost use Rattle.std.specs.Prelude.{◌≡◌};

    ghost from_gives = { λ _ e. e ≡ memory_wanted };

    fn from(_error: OutOfMemory) -> Refused {
        Refused::OutOfMemory
    }
}
