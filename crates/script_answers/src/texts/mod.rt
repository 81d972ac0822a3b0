//! Problems as texts, with names that are told, or made fit to be names of the format.

mod names;
mod writing;

pub use cyc_basics::memory::OutOfMemory;
pub use names::FitNames;
pub use writing::{ProblemNames, problem_text};
