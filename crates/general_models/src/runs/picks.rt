// What a run takes where the program leaves a choice.
ghost use Rattle.std.specs.Prelude.{◌≡◌};
ghost use Rattle.heap_formula.specs.Words.{max_of};
ghost use Rattle.general_models.specs.Picks.{pick_most as most_in_pick, headroom_of};

use std::alloc::AllocError;
use std::marker::Model;

/// The values of a new cell's fields, in order.
#[derive(Drop)]
pub struct FieldValues {
    values: Vec<u64>,
}

impl Model for FieldValues {
    ghost use Rattle.std.specs.Prelude.{List, ℕ};

    ghost Value = { List ℕ };

    ghost view = { λ f. f.values.items };
}

impl Clone for FieldValues {
    ghost is_clone = { λ values copy. copy ≡ values };

    fn clone(&self) -> Result<FieldValues, AllocError> {
        let values = self.values.clone()?;
        Ok(FieldValues { values })
    }
}

impl FieldValues {
    /// These values, without a copy.
    pub fn from_vec(values: Vec<u64>) -> FieldValues
        ensures { result ≡ values.items }
    {
        FieldValues { values }
    }

    /// The values in order.
    pub fn as_slice(&self) -> &[u64]
        ensures { result.now ≡ self.now }
    {
        &self.values
    }
}

/// A choice: `new` takes this address and fills its cell with these values; `if *` jumps, or goes to the next line.
#[derive(Clone, Drop)]
pub enum Pick {
    Cell(u64, FieldValues),
    Jumps(bool),
}

fn greatest_of(values: &[u64]) -> u64
    ensures { result ≡ max_of values.now }
{
    let mut most = 0;
    for value in values {
        most = most.max(*value);
    }
    most
}

/// The greatest number that a pick names.
fn most_named(pick: &Pick) -> u64
    ensures { result ≡ most_in_pick pick.now }
{
    match pick {
        Pick::Cell(address, fields) => greatest_of(fields.as_slice()).max(*address),
        Pick::Jumps(_) => 0,
    }
}

/// A headroom under which `new` may take each of these picks in every state in which its address is free: the greatest
/// number that they name, at least 1.
pub fn headroom(picks: &[Pick]) -> u64
    ensures { result ≡ headroom_of picks.now }
{
    let mut most = 1;
    for pick in picks {
        most = most.max(most_named(pick));
    }
    most
}
