//! Scripts as trees: bytes to tokens with their places, tokens to s-expressions, which lie in one list. No call
//! recurses, so a text may nest as deep as it likes.

mod kinds;
mod pieces;
mod places;
mod reading;
mod trees;

pub use cyc_basics::memory::OutOfMemory;
pub use kinds::{AtomKind, NodeKind, Piece, TokenKind};
pub use pieces::piece_from;
pub use places::{TokenPlace, place_of};
pub use reading::{TreeFault, read_trees};
pub use trees::{Items, Trees};
