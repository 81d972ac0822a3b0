// Terms and pure atoms under a stack and values of the locals.
ghost use Rattle.std.specs.Prelude.{◌≡◌, ◌≤◌, ◌++◌, ℕ, List, IsTrue, IfOk, length, slice_index};
ghost use Rattle.heap_formula.specs.Words.{Each};
ghost use Rattle.heap_formula.specs.Values.{value, values};
ghost use Rattle.heap_formula.specs.Fresh.{exist_bound};
ghost use Rattle.heap_formula.specs.Meaning.{PureHolds};

use cyc_basics::memory::OutOfMemory;
use heap_formula::{Pure, Term};
use std::alloc::Global;

fn entry(stack: &[u64], n: u16) -> u64
    ensures { result ≡ slice_index stack.now n }
{
    if (n as usize) < stack.len() {
        stack[n as usize]
    } else {
        0
    }
}

pub fn value_of(stack: &[u64], locals: &[u64], term: Term) -> u64
    ensures { result ≡ value stack.now locals.now term }
{
    match term {
        Term::Nil => 0,
        Term::Univ(n) => entry(stack, n),
        Term::Exist(n) => entry(locals, n),
    }
}

pub fn values_of(
    alloc: Global,
    stack: &[u64],
    locals: &[u64],
    terms: &[Term],
) -> Result<Vec<u64>, OutOfMemory>
    ensures { IfOk result (λ v. v.items ≡ values stack.now locals.now terms.now) }
{
    let mut out = Vec::new(alloc);
    for term in terms {
        out.push(value_of(stack, locals, *term))?;
    }
    Ok(out)
}

/// Whether the term's value is known, whatever locals come after these.
fn is_known(locals: &[u64], term: Term) -> bool
    ensures { IsTrue result → exist_bound term ≤ length locals.now }
{
    match term {
        Term::Nil | Term::Univ(_) => true,
        Term::Exist(n) => (n as usize) < locals.len(),
    }
}

/// Whether the atom may hold for some locals after these.
fn may_hold(stack: &[u64], locals: &[u64], atom: &Pure) -> bool
    ensures { (behind : List ℕ) → PureHolds stack.now (locals.now ++ behind) atom.now → IsTrue result }
{
    match atom {
        Pure::Eq(t, u) => {
            !(is_known(locals, *t) && is_known(locals, *u))
                || value_of(stack, locals, *t) == value_of(stack, locals, *u)
        }
        Pure::Neq(t, u) => {
            !(is_known(locals, *t) && is_known(locals, *u))
                || value_of(stack, locals, *t) != value_of(stack, locals, *u)
        }
    }
}

/// Whether each of the atoms may hold for some locals after these.
pub fn may_all_hold(stack: &[u64], locals: &[u64], atoms: &[Pure]) -> bool
    ensures { (behind : List ℕ) → Each (PureHolds stack.now (locals.now ++ behind)) atoms.now → IsTrue result }
{
    for atom in atoms {
        if !may_hold(stack, locals, atom) {
            return false;
        }
    }
    true
}
