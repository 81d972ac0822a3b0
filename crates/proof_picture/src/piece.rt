//! The text of a box.

/// A piece of the text of a box: words as the format writes them, with whether they stand out; the space between two
/// pieces of a line; or the end of a line.
#[derive(Drop)]
pub enum Piece {
    Words(bool, Vec<u8>),
    Space,
    Line,
}

/// The text of a box.
#[derive(Drop)]
pub struct Label {
    pub pieces: Vec<Piece>,
}
