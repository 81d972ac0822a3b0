//! Programs of numbered lines over a heap of cells, and their machine (Brotherston, Bornat and Calcagno 2008).
//! What a step is stands in the specs of heap_formula, module Programs.
#![tactic(auto)]

mod cells;
mod configs;
mod faults;
mod laws;
mod programs;
mod runs;
mod stacks;
mod steps;

pub use cells::Cells;
pub use configs::Config;
pub use faults::ProgramFault;
pub use laws::{lowest_steps_are_steps, some_step_is_allowed, successors_are_steps};
pub use programs::Program;
pub use runs::{Ran, run_lowest};
pub use stacks::Stack;
pub use steps::{Stepped, step};
