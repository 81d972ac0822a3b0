// Where a script can't be said.
ghost use Rattle.std.specs.Prelude.{◌≡◌, IfOk};

use crate::cases::{Refused, Unsupported};
use cyc_basics::memory::OutOfMemory;
use std::alloc::{AllocError, AllocFailed};

/// A part of a script: a formula that is asserted or denied, or the predicate, with its place in the list; or no part
/// alone.
#[derive(Clone, Copy, Debug, PartialEq, Eq)]
pub enum Place {
    Whole,
    Asserted(usize),
    Denied(usize),
    Predicate(usize),
}

/// Why there is no problem: the place and the cause, or out of memory.
#[derive(Clone, Copy, Debug)]
pub enum ScriptRefusal {
    Unsupported(Place, Unsupported),
    OutOfMemory,
}

impl From<AllocError> for ScriptRefusal {
    fn from(_error: AllocError) -> ScriptRefusal {
        ScriptRefusal::OutOfMemory
    }
}

impl<T: Drop> From<AllocFailed<T>> for ScriptRefusal {
    fn from(_error: AllocFailed<T>) -> ScriptRefusal {
        ScriptRefusal::OutOfMemory
    }
}

impl From<OutOfMemory> for ScriptRefusal {
    fn from(_error: OutOfMemory) -> ScriptRefusal {
        ScriptRefusal::OutOfMemory
    }
}

/// The refusal at a place.
pub fn at<T: Drop>(place: Place, answer: Result<T, Refused>) -> Result<T, ScriptRefusal>
    ensures { IfOk result (λ v. answer ≡ Ok v) }
{
    match answer {
        Ok(value) => Ok(value),
        Err(Refused::Unsupported(cause)) => Err(ScriptRefusal::Unsupported(place, cause)),
        Err(Refused::OutOfMemory) => Err(ScriptRefusal::OutOfMemory),
    }
}
