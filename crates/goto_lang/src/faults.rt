// Why numbered lines are no program.
use cyc_basics::memory::OutOfMemory;
use heap_formula::Count;
use std::alloc::{AllocError, AllocFailed};

/// Why numbered lines are no program. A line jumps to no line; the last line is neither `stop` nor `goto`; a line's
/// number is not its place; there are too many lines, a variable is past the 64th, or a field is not 1 to 8. The
/// numbers are the places of the lines, counted from 1.
#[derive(Clone, Copy, Debug)]
pub enum ProgramFault {
    Jump(u32),
    FallsOff,
    Numbering(u32),
    Limit(Count),
    OutOfMemory,
}

impl From<OutOfMemory> for ProgramFault {
    ghost use Rattle.goto_lang.specs.declared.faults.ProgramFault.TheVariants.{OutOfMemory as memory_wanted};
    ghost use Rattle.std.specs.Prelude.{◌≡◌};

    ghost from_gives = { λ _ e. e ≡ memory_wanted };

    fn from(_error: OutOfMemory) -> ProgramFault {
        ProgramFault::OutOfMemory
    }
}

impl From<AllocError> for ProgramFault {
    ghost use Rattle.goto_lang.specs.declared.faults.ProgramFault.TheVariants.{OutOfMemory as memory_wanted};
    ghost use Rattle.std.specs.Prelude.{◌≡◌};

    ghost from_gives = { λ _ e. e ≡ memory_wanted };

    fn from(_error: AllocError) -> ProgramFault {
        ProgramFault::OutOfMemory
    }
}

impl<T: Drop> From<AllocFailed<T>> for ProgramFault {
    ghost use Rattle.goto_lang.specs.declared.faults.ProgramFault.TheVariants.{OutOfMemory as memory_wanted};
    ghost use Rattle.std.specs.Prelude.{◌≡◌};

    ghost from_gives = { λ _ e. e ≡ memory_wanted };

    fn from(_error: AllocFailed<T>) -> ProgramFault {
        ProgramFault::OutOfMemory
    }
}
