//! Model files as trees: their grammar, reading a tree from tokens with the exact syntax fault, and writing a tree.

mod cell_list;
mod numbers;
mod read_models;
mod tree;
mod write_models;

pub use read_models::read_tree;
pub use tree::{CellTree, ModelTree};
pub use write_models::write_tree;
