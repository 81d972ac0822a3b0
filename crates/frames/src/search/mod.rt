//! A search for frames: heaps that may be left of an antecedent when what is asked for is taken out of it (Berdine,
//! Calcagno and O'Hearn 2005). Nothing is promised of what is found; the caller asks for a proof of it.

mod guesses;
mod leaves;
mod matches;
mod matching;
mod naming;
mod searching;
mod wishes;

pub use searching::{FrameQuestion, Frames, candidates};
