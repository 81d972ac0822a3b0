//! Proof files for problems: a problem's definitions and program with the nodes of a proof.

mod files;
mod laws;

pub use files::file_for;
pub use laws::{problem_has_text, problem_is_within};
