// What is left to be shown: judgements, each with the pairs that lead to it.
use std::marker::Model;

/// The pairs along which a trace may go from a judgement to a premise of it: a position of the one, a position of the
/// other, and whether the trace progresses.
#[derive(Drop)]
pub struct TracePairs {
    pairs: Vec<(u8, u8, bool)>,
}

impl Model for TracePairs {
    ghost use Rattle.std.specs.Prelude.{List};
    ghost use Rattle.trace_pairs.specs.Graph.{Pair};

    ghost Value = { List Pair };

    ghost view = { λ p. p.pairs.items };
}

impl TracePairs {
    ghost use Rattle.std.specs.Prelude.{◌≡◌};

    /// These pairs in this order, without a copy.
    pub fn from_vec(pairs: Vec<(u8, u8, bool)>) -> TracePairs
        ensures { result ≡ pairs.items }
    {
        TracePairs { pairs }
    }

    /// The pairs in order.
    pub fn as_slice(&self) -> &[(u8, u8, bool)]
        ensures { result.now ≡ self.now }
    {
        &self.pairs
    }

    /// The pairs as a vector, without a copy.
    pub fn into_vec(self) -> Vec<(u8, u8, bool)>
        ensures { result.items ≡ self }
    {
        self.pairs
    }
}

/// A premise in any logic: a judgement, and the pairs that lead to it.
#[derive(Drop)]
pub struct Subgoal<J> {
    pub judgement: J,
    pub pairs: TracePairs,
}
