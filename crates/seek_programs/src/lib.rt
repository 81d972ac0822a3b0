//! The moves of a free search with folds to companions, and those at a `from` judgement: a run of the program, with
//! links at the heads of its loops, and more general states there. A general state is read off a state at a head and
//! one in which the run comes to it again (as in the abstraction of Distefano, O'Hearn and Yang 2006, but by the
//! definitions of the problem).
#![tactic(auto)]

mod candidates;
mod climbing;
mod commons;
mod folds;
mod forced;
mod generals;
mod heads;
mod remainders;
mod runs;
mod state_folds;
mod strategy;
mod witnesses;

pub use strategy::Programs;
