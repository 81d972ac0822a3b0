// What may be wrong with a node.
ghost use Rattle.fo_formula.specs.declared.table.faults.FoRuleError.TheVariants.{OutOfMemory as memory_wanted};
ghost use Rattle.std.specs.Prelude.{◌≡◌};

use cyc_basics::memory::OutOfMemory;
use std::alloc::AllocError;

/// What is wrong with a node. `LinkLeft` and `LinkRight` carry the companion's position that has no match, and
/// `PremiseDiffers` the premise's place in the rule's list, from 0.
#[derive(Clone, Copy)]
pub enum FoFault {
    NoSuchAtom,
    NotEquation,
    AtomsDiffer,
    NotAbsurd,
    NoSuchCase,
    TooManyAtoms,
    NoFreshVariable,
    PremiseCount,
    PremiseDiffers(u32),
    NoSuchNode,
    NotVariable,
    TooManyTerms,
    LinkLeft(u32),
    LinkRight(u32),
    TermCount,
}

/// Why a rule gives no premises.
#[derive(Clone, Copy)]
pub enum FoRuleError {
    Fault(FoFault),
    OutOfMemory,
}

impl From<OutOfMemory> for FoRuleError {
    ghost from_gives = { λ _ e. e ≡ memory_wanted };

    fn from(_error: OutOfMemory) -> FoRuleError {
        FoRuleError::OutOfMemory
    }
}

impl From<AllocError> for FoRuleError {
    ghost from_gives = { λ _ e. e ≡ memory_wanted };

    fn from(_error: AllocError) -> FoRuleError {
        FoRuleError::OutOfMemory
    }
}
