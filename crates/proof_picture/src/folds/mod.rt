//! Folded pictures: a chain of nodes with one premise each is one box, and so is a right subtree without a link; the
//! trees behind that of node 0, which prove lemmas, stand apart. Nothing that a verdict names is folded away.

mod boxes;
mod entries;
mod fates;
mod folding;
mod hidden;
mod shown;
mod texts;

pub use cyc_basics::memory::OutOfMemory;
pub use entries::{Entered, Entry};
pub use fates::Fate;
pub use folding::fold_picture;
pub use shown::{FoldedPicture, ShownBox, Tree};
