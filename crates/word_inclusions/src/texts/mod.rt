//! Texts of inclusions of regular expressions and of their proofs, and what the program `words` answers to them.

mod expressions;
mod program;
mod text;
mod writing;

pub use expressions::{Level, MOST_DEPTH, any_expression, expression};
pub use program::{run, run_program};
