//! What is known of the terms of a symbolic heap, its base pairs taken in one atom at a time.

mod combining;
mod digests;
mod known;
mod labels;
mod masks;
mod near;
mod pairs;
mod states;

pub use combining::combine;
pub use known::Known;
pub use states::{AtomStep, StatesFault, add, first_states, grow_states, states_after};
