//! Proof files as values, which are made part by part, with the exact place of each fault.
#![tactic(auto)]

mod building;
mod file;
mod fronts;
mod node;
mod scope;
pub mod texts;
mod values;
mod walk;

pub use building::{FileFront, NodeFault, file_of_values, front_flaw, front_values, node_of_tree};
pub use file::ProofFile;
pub use fronts::flaws_show_in_what_is_kept;
pub use node::{FileNode, FileNodes};
pub use scope::ProgramVariables;
pub use values::value_of_node;
pub use walk::walk_node;
