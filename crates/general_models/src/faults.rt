// Why a question about a model has no answer.
use cyc_basics::memory::OutOfMemory;
use std::alloc::{AllocError, AllocFailed};

/// Why a question about a model has no answer: so many choices of locals were not allowed; or out of memory.
#[derive(Clone, Copy, PartialEq, Eq, Debug)]
pub enum CheckFault {
    TooMuch,
    OutOfMemory,
}

impl From<OutOfMemory> for CheckFault {
    ghost use Rattle.general_models.specs.declared.faults.CheckFault.TheVariants.{OutOfMemory as memory_wanted};
    ghost use Rattle.std.specs.Prelude.{◌≡◌};

    ghost from_gives = { λ _ e. e ≡ memory_wanted };

    fn from(_error: OutOfMemory) -> CheckFault {
        CheckFault::OutOfMemory
    }
}

impl From<AllocError> for CheckFault {
    ghost use Rattle.general_models.specs.declared.faults.CheckFault.TheVariants.{OutOfMemory as memory_wanted};
    ghost use Rattle.std.specs.Prelude.{◌≡◌};

    ghost from_gives = { λ _ e. e ≡ memory_wanted };

    fn from(_error: AllocError) -> CheckFault {
        CheckFault::OutOfMemory
    }
}

impl<T: Drop> From<AllocFailed<T>> for CheckFault {
    ghost use Rattle.general_models.specs.declared.faults.CheckFault.TheVariants.{OutOfMemory as memory_wanted};
    ghost use Rattle.std.specs.Prelude.{◌≡◌};

    ghost from_gives = { λ _ e. e ≡ memory_wanted };

    fn from(_error: AllocFailed<T>) -> CheckFault {
        CheckFault::OutOfMemory
    }
}
