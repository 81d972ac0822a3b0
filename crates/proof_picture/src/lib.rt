//! What stands in the picture of a proof: a box for each node, an edge for each premise and companion with its trace
//! pairs, and in red what a verdict refuses. A box has its node's judgement and its reason in the file's own notation,
//! in lines.
#![tactic(auto)]

mod arrows;
mod carried;
pub mod folds;
mod labels;
mod layout;
pub mod names;
mod picture;
mod piece;
mod spot;
mod steps;

pub use arrows::{Arrow, Row};
pub use carried::atoms_carried;
pub use cyc_basics::memory::OutOfMemory;
pub use labels::{carried_at, labels_of_file, statement, text_alone, written_tokens};
pub use layout::lay_out;
pub use picture::{NodeBox, Picture, picture_of, picture_with, rows_for};
pub use piece::{Label, Piece};
