// What a node of a proof states.
ghost use Rattle.std.specs.Prelude.{◌≡◌};
ghost use Rattle.word_inclusions.specs.Expressions.{expression_of, sides};

use crate::expression::Regex;
use std::marker::Model;

/// The inclusion of one expression in another.
#[derive(Drop)]
pub struct Inclusion {
    left: Regex,
    right: Regex,
}

impl Model for Inclusion {
    ghost use Rattle.word_inclusions.specs.Expressions.{expression_of, Sides, sides, coded_sides};

    ghost Value = { Sides };

    ghost coded = { coded_sides };

    ghost view = { λ i. sides (expression_of i.left) (expression_of i.right) };
}

impl Inclusion {
    /// The inclusion of the left expression in the right one.
    pub fn new(left: Regex, right: Regex) -> Inclusion
        ensures { result ≡ sides (expression_of left) (expression_of right) }
    {
        Inclusion { left, right }
    }

    /// The left expression.
    pub fn left(&self) -> &Regex
        ensures { expression_of result.now ≡ self.now.left }
    {
        &self.left
    }

    /// The right expression.
    pub fn right(&self) -> &Regex
        ensures { expression_of result.now ≡ self.now.right }
    {
        &self.right
    }
}
