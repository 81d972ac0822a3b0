//! The author's names of a goal's variables by their numbers. The numbers are those that `name_numbers` puts in the
//! place of the names.

mod ends;
mod goals;
mod heaps;
mod names;
mod programs;

pub use cyc_basics::memory::OutOfMemory;
pub use goals::goal_names;
pub use names::ProblemName;
