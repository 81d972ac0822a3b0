//! Symbolic heaps as trees over terms of any form: their grammar, and reading them from tokens.
#![tactic(auto)]

pub mod definitions;
pub mod ends;
mod form;
mod keep;
pub mod lines;
mod mark;
mod number_list;
mod read_atoms;
mod read_heaps;
mod tree;
mod version;
mod word;
pub mod writing;

pub use form::{AtomForm, TermForm, WrittenForm};
pub use keep::Keep;
pub use mark::Mark;
pub use number_list::{bracketed, premises, two_numbers};
pub use read_atoms::{arguments, fields, sign, spatial};
pub use read_heaps::{heap, heaps, kept_heap, kept_heaps};
pub use tree::{HeapTree, PureTree, SpatialTree};
pub use version::{Version, first_version, read_version, write_first_version, write_version};
pub use word::{free_name, reserved_words};
