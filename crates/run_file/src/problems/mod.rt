//! Run files for problems: a problem's definitions, program and claim with a run.

mod limits;
mod runs;

pub use runs::run_for;
