// The nodes of a proof as its file has them.
use std::marker::Model;

/// The numbers of nodes, counted from 0.
#[derive(Drop)]
pub struct Numbers {
    numbers: Vec<u32>,
}

impl Model for Numbers {
    ghost use Rattle.std.specs.Prelude.{List, ℕ};

    ghost Value = { List ℕ };

    ghost view = { λ n. n.numbers.items };
}

impl Numbers {
    ghost use Rattle.std.specs.Prelude.{◌≡◌};

    /// These numbers in this order, without a copy.
    pub fn from_vec(numbers: Vec<u32>) -> Numbers
        ensures { result ≡ numbers.items }
    {
        Numbers { numbers }
    }

    /// The numbers in order.
    pub fn as_slice(&self) -> &[u32]
        ensures { result.now ≡ self.now }
    {
        &self.numbers
    }
}

/// A node of a proof: what it states, why that holds, and the numbers of the nodes of its premises. A link has none.
#[derive(Drop)]
pub struct ProofNode<J, R> {
    pub judgement: J,
    pub reason: R,
    pub premises: Numbers,
}
