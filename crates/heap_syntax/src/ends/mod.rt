//! The ends of a program as trees over terms of any form: their grammar, and reading them from tokens.

mod read_ends;
mod tree;

pub use read_ends::{end, ends, has_ends, kept_end};
pub use tree::EndTree;
