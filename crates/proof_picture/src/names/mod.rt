//! Pictures of proofs in the words of the problem that was proved: with its author's names for the variables of the
//! goal, as far down as they keep their meaning, and numbers where the proof made new ones; with the command of a
//! program's line; and a title, the problem's own statements.

mod kept;
mod labels;
mod marks;
mod naming;
mod picture;
mod titles;
mod words;

pub use cyc_basics::memory::OutOfMemory;
pub use naming::Naming;
pub use picture::named_picture_of;
pub use titles::{program_lines, statements_of, title_of};
