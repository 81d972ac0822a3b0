//! What `draw` is given: a proof, and behind it in the same text the problem that was proved, or nothing. Where the
//! problem begins, and whether the proof is one of its goal.

mod fits;
mod parts;

pub use cyc_basics::memory::OutOfMemory;
pub use fits::{Misfit, misfit_of};
pub use parts::{Start, parts_of};
