//! Texts of first-order logic: reading proofs and problems, with the exact place of each fault, and writing a proof
//! that is read again.
#![tactic(auto)]

mod problem_reading;
mod reading;
pub mod values;
pub mod walk;
mod writing;

pub use crate::values::FoProblem;
pub use fo_formula::FoFile;
pub use problem_reading::{bytes_spell_one_problem, read_fo_problem};
pub use reading::read_fo;
pub use writing::{
    bytes_spell_one_file, proofs_of_problems_have_texts, write_fo, written_files_are_read_again,
};
