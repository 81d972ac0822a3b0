//! Heaps as values, from trees over terms of any form, and the first flaw of such trees: what is ill-formed or passes a
//! limit, and at which token.
#![tactic(auto)]

mod atom_walk;
pub mod definitions;
pub mod ends;
mod flaw;
mod form;
mod head;
mod heap_walk;
pub mod items;
pub mod lines;
mod told;
mod values;

pub use flaw::{Flaw, Item, ill, over};
pub use form::TermReader;
pub use head::{Head, Heads, heads_of};
pub use heap_walk::{walk_heap, walk_heaps};
pub use told::flaw_fault;
pub use values::{definition_value, entailment_value, heap_value, heap_values};
