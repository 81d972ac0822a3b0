//! Which values have a text: what definitions, a program and a goal are within, and a test that tells the first limit
//! that they pass.

mod definitions;
mod ends;
mod excess;
mod heaps;
mod judgements;
mod lines;
mod names;
mod problems;

pub use excess::{CaseExcess, DefinitionExcess, HeapExcess, JudgementExcess, ProblemExcess};
pub use heaps::heap_excess;
pub use judgements::judgement_excess;
pub use problems::problem_excess;
