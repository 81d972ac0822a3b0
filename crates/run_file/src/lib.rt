//! Run files: a claim that a program halts, and a run that is said to refute it. Reading a text, with the exact place
//! of each fault, and writing one that is read again. Whether the run refutes the claim is not asked here.
#![tactic(auto)]

mod file;
mod items;
mod laws;
mod line_trees;
mod lists;
pub mod problems;
mod read_runs;
mod reading;
mod tree;
mod trees;
mod values;
mod walk;
mod write_runs;
mod writing;

pub use file::RunFile;
pub use laws::predicates_of_runs_are_defined;
pub use reading::read_run;
pub use tree::Outcome;
pub use writing::{bytes_spell_one_run, write_run, written_runs_are_read_again};
