//! The one error that every layer may answer: out of memory.

use std::alloc::{AllocError, AllocFailed};

/// Memory was wanted and refused. No clause says when it comes.
#[derive(Clone, Copy, Debug)]
pub struct OutOfMemory;

impl From<AllocError> for OutOfMemory {
    fn from(_error: AllocError) -> OutOfMemory {
        OutOfMemory
    }
}

impl<T: Drop> From<AllocFailed<T>> for OutOfMemory {
    fn from(_error: AllocFailed<T>) -> OutOfMemory {
        OutOfMemory
    }
}
