//! Heaps and definitions of predicates with numbered variables: their trees and grammar, and reading them from tokens.

mod definition_list;
mod form;
mod term_ends;
mod term_heaps;
mod tree;

pub use definition_list::{definition, definitions, kept_definition};
pub use form::{NumberedForm, universal_term, write_universal_term};
pub use term_ends::{ends, kept_end};
pub use term_heaps::{heap, heaps, kept_heap, kept_heaps};
pub use tree::{DefinitionTree, EndTree, HeapTree, PureTree, SpatialTree, TermTree};
