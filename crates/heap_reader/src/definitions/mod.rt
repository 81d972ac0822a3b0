//! Definitions of predicates and heaps with numbered variables, as values: their first flaw, what they say, and their
//! trees.

mod head_list;
mod scope;
mod trees;
mod values;
mod walk;

pub use head_list::heads;
pub use scope::Scope;
pub use trees::{definition_trees, heap_tree, heap_trees, term_tree};
pub use values::definition_values;
pub use walk::walk_definitions;
