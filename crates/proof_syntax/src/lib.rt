//! Proof files as trees: their grammar, and reading a tree from tokens with the exact syntax fault.
#![tactic(auto)]

mod form;
mod line_lists;
mod read_files;
mod read_reasons;
mod reason_word;
pub mod statements;
mod tree;
pub mod writing;

pub use form::DollarVariables;
pub use line_lists::line;
pub use read_files::{kept_node, read_tree};
pub use reason_word::{ReasonWord, text_of_side};
pub use tree::{
    DefinitionTree, EndTree, EntailmentTree, FileTree, HeapTree, JudgementTree, LineTree, LinkTree,
    NodeTree, PairTree, PureTree, ReasonTree, SideTree, SpatialTree, TermTree,
};
