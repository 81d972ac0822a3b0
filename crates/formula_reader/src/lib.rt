//! Problem files: reading a text, with the exact place of each fault.
#![tactic(auto)]

pub mod files;
mod goals;
mod heads;
pub mod limits;
mod making;
mod problem;
mod reading;
mod terms;
mod values;
mod walk;

pub use making::problem_of_values;
pub use problem::Problem;
pub use reading::{read_problem, spelled_problems_are_read};
