//! The lines that the program prints, each ended by one line feed, as bytes.

mod faults;
mod line;
mod places;
mod searches;
mod verdicts;

pub use cyc_basics::memory::OutOfMemory;
pub use line::Line;
pub use places::{ill_formed_line, lexical_line, limit_line, syntax_line};
pub use searches::{not_found_line, ring_line};
pub use verdicts::{accepted_line, node_refused_line, path_refused_line};
