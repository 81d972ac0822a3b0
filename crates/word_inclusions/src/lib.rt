//! Inclusions of regular expressions as a logic: `e |- f` says that each word of `e` is a word of `f`. A step takes the
//! first factor of the left side apart, with a derivative on the right where that is a letter (Brzozowski 1964,
//! Antimirov 1996); a star that is kept is where a trace progresses (Das and Pous 2017).
#![tactic(auto)]

mod derivative;
mod expression;
mod inclusion;
mod logic;
mod step;
pub mod texts;

pub use cyc_basics::memory::OutOfMemory;
pub use expression::Regex;
pub use inclusion::Inclusion;
pub use logic::{WordFault, WordInclusions, WordRule};
