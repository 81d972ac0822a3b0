// Why a move does not go on.
use cyc_basics::memory::OutOfMemory;
use std::alloc::{AllocError, AllocFailed};

/// Why a move does not go on: there is no way on, and the tree is as the caller finds it; a lemma is asked for, and the
/// move is to be made again when the memo knows it; or out of memory.
#[derive(Clone, Copy)]
pub enum Stop {
    NoWay,
    Asked,
    OutOfMemory,
}

impl From<OutOfMemory> for Stop {
    fn from(_error: OutOfMemory) -> Stop {
        Stop::OutOfMemory
    }
}

impl From<AllocError> for Stop {
    fn from(_error: AllocError) -> Stop {
        Stop::OutOfMemory
    }
}

impl<T: Drop> From<AllocFailed<T>> for Stop {
    fn from(_error: AllocFailed<T>) -> Stop {
        Stop::OutOfMemory
    }
}
