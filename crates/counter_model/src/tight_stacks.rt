// The stacks in which each entry is at most one more than the entries before it.
ghost use Rattle.std.specs.Prelude.{◌≡◌, ◌+◌, ◌++◌, ◌∷◌, [], ◌⊎◌, ℕ, List, IfOk, length, max};
ghost use Rattle.heap_formula.specs.Words.{Each, OneOf, max_of};
ghost use Rattle.cyc_basics.specs.Words.{IsMember};
ghost use Rattle.counter_model.specs.Tightness.{Breaks, IsStack, IsStep};

use cyc_basics::memory::OutOfMemory;
use goto_lang::Stack;
use std::alloc::Global;

fn extended(alloc: Global, stack: &[u64], value: u64) -> Result<Stack, OutOfMemory>
    ensures { IfOk result (λ s. s ≡ stack.now ++ value ∷ []) }
{
    let mut longer = Vec::from_slice(alloc, stack)?;
    longer.push(value)?;
    Ok(Stack::from_vec(longer))
}

fn greatest_entry(stack: &[u64]) -> u64
    ensures { result ≡ max_of stack.now }
{
    let mut most = 0;
    for value in stack {
        most = most.max(*value);
    }
    most
}

/// Adds the stack with one more entry, in each way that is allowed.
fn add_steps(
    alloc: Global,
    greatest: u32,
    out: &mut Vec<Stack>,
    stack: &[u64],
) -> Result<(), OutOfMemory>
    requires { IsStack greatest (length stack.now) stack.now }
    ensures complete { IfOk result (λ _. (e : List ℕ) → (IsMember e out.old.items ⊎ IsStep greatest stack.now e)
        → IsMember e out.new.items) }
    ensures sound { IfOk result (λ _. Each (IsStack greatest (length stack.now + 1)) out.old.items
        → Each (IsStack greatest (length stack.now + 1)) out.new.items) }
{
    let last = greatest_entry(stack).saturating_add(1).min(greatest as u64);
    for value in 0..last + 1 {
        out.push(extended(alloc, stack, value)?)?;
    }
    Ok(())
}

fn all_steps(
    alloc: Global,
    greatest: u32,
    count: usize,
    shorter: &[Stack],
) -> Result<Vec<Stack>, OutOfMemory>
    requires { Each (IsStack greatest count) shorter.now }
    ensures complete { IfOk result (λ v. (e : List ℕ) → OneOf (λ l. IsStep greatest l e) shorter.now
        → IsMember e v.items) }
    ensures sound { IfOk result (λ v. Each (IsStack greatest (count + 1)) v.items) }
{
    let mut out = Vec::new(alloc);
    for stack in shorter {
        add_steps(alloc, greatest, &mut out, stack.as_slice())?;
    }
    Ok(out)
}

/// The stacks of so many entries from 0 to the greatest in which each entry is at most one more than all before it.
pub fn tight_stacks(alloc: Global, greatest: u32, count: u32) -> Result<Vec<Stack>, OutOfMemory>
    ensures complete { IfOk result (λ v. (s : List ℕ)
        → IsStack greatest count s → (¬ Breaks 0 s) → IsMember s v.items) }
    ensures sound { IfOk result (λ v. Each (IsStack greatest count) v.items) }
{
    let mut all = Vec::new(alloc);
    all.push(Stack::from_vec(Vec::new(alloc)))?;
    for known in 0..count {
        all = all_steps(alloc, greatest, known as usize, &all)?;
    }
    Ok(all)
}
