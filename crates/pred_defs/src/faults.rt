// Why definitions are refused.
use cyc_basics::memory::OutOfMemory;
use heap_formula::Count;
use std::alloc::{AllocError, AllocFailed};

/// Why a definition is not taken, or a list of definitions is not closed: the name is there already, a predicate that
/// is used has no definition, it is used with another number of arguments, a count is passed, or a case has a universal
/// variable that is no parameter.
#[derive(Clone, Copy, Debug)]
pub enum DefFault {
    Duplicate,
    Unknown,
    Arity,
    Limit(Count),
    Parameter,
    OutOfMemory,
}

impl From<OutOfMemory> for DefFault {
    ghost use Rattle.pred_defs.specs.declared.faults.DefFault.TheVariants.{OutOfMemory as memory_wanted};
    ghost use Rattle.std.specs.Prelude.{◌≡◌};

    ghost from_gives = { λ _ e. e ≡ memory_wanted };

    fn from(_error: OutOfMemory) -> DefFault {
        DefFault::OutOfMemory
    }
}

impl From<AllocError> for DefFault {
    ghost use Rattle.pred_defs.specs.declared.faults.DefFault.TheVariants.{OutOfMemory as memory_wanted};
    ghost use Rattle.std.specs.Prelude.{◌≡◌};

    ghost from_gives = { λ _ e. e ≡ memory_wanted };

    fn from(_error: AllocError) -> DefFault {
        DefFault::OutOfMemory
    }
}

impl<T: Drop> From<AllocFailed<T>> for DefFault {
    ghost use Rattle.pred_defs.specs.declared.faults.DefFault.TheVariants.{OutOfMemory as memory_wanted};
    ghost use Rattle.std.specs.Prelude.{◌≡◌};

    ghost from_gives = { λ _ e. e ≡ memory_wanted };

    fn from(_error: AllocFailed<T>) -> DefFault {
        DefFault::OutOfMemory
    }
}
