//! Theories, sequents and problem files of first-order logic as trees: their grammar, reading them from tokens with the
//! exact syntax fault, and writing theories and sequents.

mod atom_lists;
mod item;
mod problems;
mod sequents;
mod theories;
mod tree;

pub use item::{Item, listed, more_statements, write_listed, write_statements};
pub use problems::read_problem_tree;
pub use sequents::{sequent, write_sequent};
pub use theories::{constructors, definitions, write_constructors, write_definitions};
pub use tree::{ConstructorTree, DefinitionTree, ProblemTree, SequentTree};
