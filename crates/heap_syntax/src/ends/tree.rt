//! Trees of ends: what a text of the grammar says of a final state, with lists of any length.

use crate::tree::HeapTree;

/// What holds where a run stops at a line that is `stop`: some disjunct, of which there is at least one.
#[derive(Drop)]
pub struct EndTree<'a, T> {
    pub number: u32,
    pub disjuncts: Vec<HeapTree<'a, T>>,
}
