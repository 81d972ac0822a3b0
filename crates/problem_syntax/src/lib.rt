//! Problem files as trees: their grammar, and reading a tree from tokens with the exact syntax fault.
#![tactic(auto)]

mod form;
pub mod names;
pub mod numbering;
mod read_definitions;
mod read_problem;
mod tree;

pub use read_problem::read_problem_tree;
pub use tree::{DefinitionTree, EndTree, GoalTree, HeapTree, LineTree, NameTree, ProblemTree};
