//! What a reader holds of a text that it was fed so far.

use crate::known::{Found, KnownFront};
use cyc_lex::{LexFault, Place, ReadFault};

/// A text of which no node has come: all its bytes, since a use may name a predicate that is defined later. They are
/// looked at again once so many came.
#[derive(Drop)]
pub struct Opening {
    pub all: Vec<u8>,
    pub enough: usize,
}

/// A text without a syntax fault so far, from its first node on: what it says up to a place, whether a comment goes on
/// there, and the bytes from there on, which wait and are looked at again once so many do.
#[derive(Drop)]
pub struct Running {
    pub known: KnownFront,
    pub found: Found,
    pub place: Place,
    pub comment: bool,
    pub waiting: Vec<u8>,
    pub enough: usize,
}

/// A text with a syntax fault, which a lexical fault may still go before: the bytes that wait, with the place where
/// they begin and whether a comment goes on there. They are looked at again once so many wait.
#[derive(Drop)]
pub struct Faulty {
    pub fault: ReadFault,
    pub place: Place,
    pub comment: bool,
    pub waiting: Vec<u8>,
    pub enough: usize,
}

/// The text as a reader holds it; after a lexical fault, and where memory ran out, only how many bytes were fed.
#[derive(Drop)]
pub enum Held {
    Opening(Opening),
    Running(Running),
    Faulty(Faulty),
    Unlexed(LexFault, u32),
    Lost(u32),
}
