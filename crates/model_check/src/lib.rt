//! Whether a stack and a heap satisfy a formula under the least meaning of its definitions, exactly (Brotherston,
//! Gorogiannis, Kanovich and Rowe 2016), for definitions whose locals the heap determines.
#![tactic(auto)]

mod ground;
mod grounding;
mod known;
mod locals;
mod mask;
mod places;
mod questions;
mod satisfaction;
mod solving;
mod unions;

pub use ground::{GroundRule, Piece, Pieces};
pub use grounding::{copied_question, ground_case};
pub use known::{ValueStep, is_constructive, is_heap_known, is_known, known_terms, steps_of};
pub use mask::Mask;
pub use places::{Place, constructive, constructive_all};
pub use questions::Question;
pub use satisfaction::{heap_places, is_given, satisfied, satisfied_by_part, whole_mask};
pub use solving::solve;
pub use unions::Row;
