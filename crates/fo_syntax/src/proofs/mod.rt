//! Proof files of first-order logic as trees: their grammar, reading a tree from tokens with the exact syntax fault,
//! and writing a tree.

mod files;
mod nodes;
mod read_reasons;
mod reason_word;
mod term_lists;
mod tree;
mod write_reasons;

pub use files::{read_tree, write_tree};
pub use tree::{FileTree, LinkTree, NodeTree, PairTree, ReasonTree, SideTree};
