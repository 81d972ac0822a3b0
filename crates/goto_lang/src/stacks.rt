// The values of the program variables.
ghost use Rattle.std.specs.Prelude.{◌≡◌, ◌<◌, length, slice_index, slice_set};
ghost use Rattle.heap_formula.specs.Words.{max_of};

use std::alloc::AllocError;
use std::marker::Model;

/// The values of the variables in order; a variable past the end has the value 0.
#[derive(Drop)]
pub struct Stack {
    values: Vec<u64>,
}

impl Model for Stack {
    ghost use Rattle.std.specs.Prelude.{List, ℕ};

    ghost Value = { List ℕ };

    ghost view = { λ s. s.values.items };
}

impl Clone for Stack {
    ghost is_clone = { λ stack copy. copy ≡ stack };

    fn clone(&self) -> Result<Stack, AllocError> {
        let values = self.values.clone()?;
        Ok(Stack { values })
    }
}

impl Stack {
    /// These values in this order, without a copy.
    pub fn from_vec(values: Vec<u64>) -> Stack
        ensures { result ≡ values.items }
    {
        Stack { values }
    }

    /// The values in order.
    pub fn as_slice(&self) -> &[u64]
        ensures { result.now ≡ self.now }
    {
        &self.values
    }

    /// The value of a variable.
    pub fn get(&self, variable: u16) -> u64
        ensures { result ≡ slice_index self.now variable }
    {
        value_at(&self.values, variable as usize)
    }

    /// Gives a variable a new value.
    pub fn set(&mut self, variable: u16, value: u64)
        requires { variable < length self.old }
        ensures { self.new ≡ slice_set self.old variable value }
    {
        self.values[variable as usize] = value;
    }
}

fn value_at(values: &[u64], i: usize) -> u64
    ensures { result ≡ slice_index values.now i }
{
    if i < values.len() { values[i] } else { 0 }
}

/// The greatest of the values, 0 if there is none.
pub(crate) fn greatest_of(values: &[u64]) -> u64
    ensures { result ≡ max_of values.now }
{
    let mut most = 0;
    for value in values {
        most = most.max(*value);
    }
    most
}
