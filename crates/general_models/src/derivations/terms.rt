// The values of terms, and pure atoms.
ghost use Rattle.std.specs.Prelude.{◌↔◌, ◌≡◌, IfOk, IsTrue, slice_index};
ghost use Rattle.heap_formula.specs.Words.{Each};
ghost use Rattle.heap_formula.specs.Values.{value, values};
ghost use Rattle.heap_formula.specs.Meaning.{PureHolds};

use cyc_basics::memory::OutOfMemory;
use heap_formula::{Pure, Term};
use std::alloc::Global;

fn entry(numbers: &[u64], n: u16) -> u64
    ensures { result ≡ slice_index numbers.now n }
{
    let place = n as usize;
    if place < numbers.len() {
        numbers[place]
    } else {
        0
    }
}

/// The value of a term.
pub fn value_of(stack: &[u64], locals: &[u64], term: Term) -> u64
    ensures { result ≡ value stack.now locals.now term }
{
    match term {
        Term::Nil => 0,
        Term::Univ(n) => entry(stack, n),
        Term::Exist(n) => entry(locals, n),
    }
}

/// The values of terms.
pub fn values_of(
    alloc: Global,
    stack: &[u64],
    locals: &[u64],
    terms: &[Term],
) -> Result<Vec<u64>, OutOfMemory>
    ensures { IfOk result (λ v. v.items ≡ values stack.now locals.now terms.now) }
{
    let mut found = Vec::new(alloc);
    for term in terms {
        found.push(value_of(stack, locals, *term))?;
    }
    Ok(found)
}

fn pure_holds(stack: &[u64], locals: &[u64], atom: &Pure) -> bool
    ensures { IsTrue result ↔ PureHolds stack.now locals.now atom.now }
{
    match atom {
        Pure::Eq(t, u) => value_of(stack, locals, *t) == value_of(stack, locals, *u),
        Pure::Neq(t, u) => value_of(stack, locals, *t) != value_of(stack, locals, *u),
    }
}

/// Whether all these pure atoms hold.
pub fn pures_hold(stack: &[u64], locals: &[u64], atoms: &[Pure]) -> bool
    ensures { IsTrue result ↔ Each (PureHolds stack.now locals.now) atoms.now }
{
    for atom in atoms {
        if !pure_holds(stack, locals, atom) {
            return false;
        }
    }
    true
}
