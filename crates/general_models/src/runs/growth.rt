// How a run comes back to a state like one before, with more.
ghost use Rattle.std.specs.Prelude.{◌≡◌};

use std::alloc::AllocError;
use std::marker::Model;

/// A value of a state, and the value of a later state that stands for it.
#[derive(Clone, Copy, PartialEq, Eq, Debug)]
pub struct ValuePair {
    pub before: u32,
    pub after: u32,
}

/// Which values of a later state stand for those of a state, in any order. A value from 2^32 on is in no pair.
#[derive(Drop)]
pub struct Renaming {
    pairs: Vec<ValuePair>,
}

impl Model for Renaming {
    ghost use Rattle.std.specs.Prelude.{List};
    ghost use Rattle.general_models.specs.declared.runs.growth.ValuePair.{ValuePair};

    ghost Value = { List ValuePair };

    ghost view = { λ r. r.pairs.items };
}

impl Clone for Renaming {
    ghost is_clone = { λ renaming copy. copy ≡ renaming };

    fn clone(&self) -> Result<Renaming, AllocError> {
        let pairs = self.pairs.clone()?;
        Ok(Renaming { pairs })
    }
}

impl Renaming {
    /// These pairs, without a copy.
    pub fn from_vec(pairs: Vec<ValuePair>) -> Renaming
        ensures { result ≡ pairs.items }
    {
        Renaming { pairs }
    }

    /// The pairs in order.
    pub fn as_slice(&self) -> &[ValuePair]
        ensures { result.now ≡ self.now }
    {
        &self.pairs
    }
}

/// After how many steps a run is in the two states, the first number less than the second, and what stands for the
/// values of the first of them in the second.
#[derive(Clone, Drop)]
pub struct Growth {
    pub first: u32,
    pub again: u32,
    pub renaming: Renaming,
}
