//! A free search for runs of a program that fault, come back to a state where they were before, come back to one like
//! it, with more, or stop at an end that does not hold. They begin in models of symbolic unfoldings of the precondition,
//! and are made less general by pairs of values that the program compares.
//! Nothing is promised of what is found.
#![tactic(auto)]

mod choosing;
mod claims;
mod ends;
mod exploring;
mod faulty_runs;
mod growth;
mod pairing;
mod repeats;

pub use claims::faulty_run;
pub use cyc_basics::memory::OutOfMemory;
pub use faulty_runs::{FaultyRun, Finish};
