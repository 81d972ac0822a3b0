//! Scripts of the competition as problems.

mod problems;

pub use crate::goals::{Place, Question, ScriptRefusal, Unsupported};
pub use problems::{ScriptProblem, problem_of_script};
