//! Texts of proofs in a logic of rules, and a program that checks them and finds them: what an author says beside the
//! logic is how judgements and rules are read and written.

mod answers;
mod program;
mod prover;
mod reading;
mod text;
mod writing;

pub use answers::Checker;
pub use cyc_basics::memory::OutOfMemory;
pub use program::{Task, run, run_program, task_of};
pub use prover::Prover;
pub use reading::{RuleNode, read_problem, read_proof};
pub use text::RuleText;
pub use writing::{proof_text, put};
