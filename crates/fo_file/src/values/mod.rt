//! Texts of first-order logic as values: what their trees say, and the trees of values.

mod atom_trees;
mod atom_values;
mod file_trees;
mod file_values;
mod node_trees;
mod node_values;
mod problem;
mod term_trees;
mod term_values;
mod theory_trees;
mod theory_values;

pub use file_trees::{file_tree, problem_tree};
pub use file_values::{file_value, problem_value};
pub use problem::FoProblem;
