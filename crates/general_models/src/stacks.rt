// Lists of values for the parameters of a case and its open locals.
ghost use Rattle.std.specs.Prelude.{◌≡◌, List, ℕ, map, ◌++◌, ◌∷◌, [], IfOk, OnOk, slice_index};
ghost use Rattle.general_models.specs.RangedGrounding.{front as first_values, with_each as with_each_value};
ghost use Rattle.general_models.specs.RangedGrounding.{with_values as with_all_values};

use cyc_basics::memory::OutOfMemory;
use goto_lang::Stack;
use std::alloc::Global;

fn value_at(values: &[u64], i: usize) -> u64
    ensures { result ≡ slice_index values.now i }
{
    if i < values.len() { values[i] } else { 0 }
}

/// The first values, 0 past the end.
pub fn front(alloc: Global, values: &[u64], count: u32) -> Result<Stack, OutOfMemory>
    ensures { IfOk result (λ s. s ≡ first_values count values.now) }
{
    let mut first = Vec::new(alloc);
    for i in 0..count {
        first.push(value_at(values, i as usize))?;
    }
    Ok(Stack::from_vec(first))
}

fn with_value(alloc: Global, values: &[u64], value: u64) -> Result<Stack, OutOfMemory>
    ensures { IfOk result (λ s. s ≡ values.now ++ value ∷ []) }
{
    let mut longer = values.to_vec(alloc)?;
    longer.push(value)?;
    Ok(Stack::from_vec(longer))
}

/// Adds a stack with each value of the range at its end.
fn push_each(
    alloc: Global,
    stacks: &mut Vec<Stack>,
    values: &[u64],
    range: &[u64],
) -> Result<(), OutOfMemory>
    ensures { OnOk result (stacks.new.items ≡ stacks.old.items ++ map (λ v. values.now ++ v ∷ []) range.now) }
{
    for value in range {
        let longer = with_value(alloc, values, *value)?;
        stacks.push(longer)?;
    }
    Ok(())
}

fn with_each(alloc: Global, stacks: &[Stack], range: &[u64]) -> Result<Vec<Stack>, OutOfMemory>
    ensures { IfOk result (λ v. v.items ≡ with_each_value range.now stacks.now) }
{
    let mut longer = Vec::new(alloc);
    for stack in stacks {
        push_each(alloc, &mut longer, stack.as_slice(), range)?;
    }
    Ok(longer)
}

/// The stack with each list of so many values of the range at its end.
pub fn with_values(
    alloc: Global,
    stack: Stack,
    range: &[u64],
    count: usize,
) -> Result<Vec<Stack>, OutOfMemory>
    ensures { IfOk result (λ v. v.items ≡ with_all_values range.now stack count) }
{
    let mut stacks = Vec::new(alloc);
    stacks.push(stack)?;
    for _i in 0..count {
        let longer = with_each(alloc, &stacks, range)?;
        stacks = longer;
    }
    Ok(stacks)
}
