//! Numbers in place of the names of a problem file: each name has its place among the names of its scope, in the order
//! of first occurrence.

mod definitions;
mod disjuncts;
mod ends;
mod heaps;
mod names;
mod occurrences;
mod problems;
mod programs;
mod scope;
mod tree;

pub use problems::number_problem;
pub use tree::{
    NumberedDefinition, NumberedEnd, NumberedGoal, NumberedHeap, NumberedProblem, NumberedTerm,
};
