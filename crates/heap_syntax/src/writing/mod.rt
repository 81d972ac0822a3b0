//! Writing symbolic heaps, lists of numbers and definitions of predicates, as the grammar has them.

mod atoms;
mod definitions;
mod ends;
mod heaps;
mod numbers;
mod term_ends;
mod term_heaps;

pub use definitions::write_definitions;
pub use numbers::{write_bracketed, write_premises};
pub use term_ends::write_ends;
pub use term_heaps::{write_heap, write_heaps};
