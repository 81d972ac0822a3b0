//! Runs of programs whose choices are given, and how they show that a program does not halt.

mod alike;
mod comparing;
mod fresh;
mod growth;
mod laws;
mod picks;
mod refuting;
mod running;
mod termination;

pub use comparing::same_states;
pub use growth::{Growth, Renaming, ValuePair};
pub use laws::{
    picks_are_allowed_under_their_headroom, refuting_runs_exclude_termination,
    refuting_runs_never_halt, steps_of_runs_are_steps,
};
pub use picks::{FieldValues, Pick, headroom};
pub use refuting::{Ending, is_refuting, start_state};
pub use running::{Cause, RunEnd, run};
pub use termination::refutes_termination;
