// The cases of definitions at given values in a given heap, as rules on masks.
ghost use Rattle.std.specs.Prelude.{◌≡◌};

use std::marker::Model;

/// What a rule asks for: the cell at a place of the heap, or some part of which a question holds.
#[derive(Clone, Copy)]
pub enum Piece {
    Here(usize),
    Of(usize),
}

/// The pieces whose disjoint union a rule gives.
#[derive(Drop)]
pub struct Pieces {
    items: Vec<Piece>,
}

impl Model for Pieces {
    ghost use Rattle.std.specs.Prelude.{List};
    ghost use Rattle.model_check.specs.declared.ground.Piece.{Piece};

    ghost Value = { List Piece };

    ghost view = { λ p. p.items.items };
}

impl Pieces {
    /// The pieces in order.
    pub fn as_slice(&self) -> &[Piece]
        ensures { result.now ≡ self.now }
    {
        &self.items
    }

    /// These pieces, without a copy.
    pub fn from_vec(items: Vec<Piece>) -> Pieces
        ensures { result ≡ items.items }
    {
        Pieces { items }
    }
}

/// A case of a predicate at given values: the number of the question that it answers, and the pieces.
#[derive(Drop)]
pub struct GroundRule {
    pub head: usize,
    pub pieces: Pieces,
}
