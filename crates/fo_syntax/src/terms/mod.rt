//! Terms and atoms of first-order logic as trees: their grammar, reading them from tokens and writing them.

mod bracket;
mod bracketing;
mod counting;
mod places;
mod read_marks;
mod read_terms;
mod stack;
mod tree;
mod word;
mod write_terms;

pub use places::places_of;
pub use read_terms::{atom, term};
pub use tree::{AtomTree, SignTree};
pub use word::{free_name, is_free_name_next};
pub use write_terms::{write_atom, write_term};
