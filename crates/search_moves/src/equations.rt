// Equations of a symbolic state.
ghost use Rattle.std.specs.Prelude.{◌≡◌, ◌&&◌, ◌||◌, IfOk};
ghost use Rattle.search_moves.specs.States.{stands_in_others, some_other_has, is_logical as is_logical_term};
ghost use Rattle.search_moves.specs.States.{occurs_elsewhere as occurs_outside, state_side};
ghost use Rattle.search_moves.specs.States.{state_rewrites as state_rewrites_of};

use crate::places::alone;
use back_links::{some_spatial_has, stands_in_pure};
use cyc_basics::memory::OutOfMemory;
use heap_formula::{Heap, Pure, Rule, Side, Spatial, Term};
use rule_table::same_term;
use std::alloc::Global;

fn stands_in_other(n: u16, k: usize, i: usize, atom: Pure) -> bool
    ensures { result ≡ stands_in_others n k i atom }
{
    i != k && stands_in_pure(n, atom)
}

fn another_has(n: u16, k: usize, atoms: &[Pure]) -> bool
    ensures { result ≡ some_other_has n k 0 atoms.now }
{
    for (i, atom) in atoms.iter().enumerate() {
        if stands_in_other(n, k, i, *atom) {
            return true;
        }
    }
    false
}

fn is_logical(p: u16, term: Term) -> bool
    ensures { result ≡ is_logical_term p term }
{
    match term {
        Term::Univ(n) => p <= n,
        Term::Nil | Term::Exist(_) => false,
    }
}

/// Whether the term is a variable that stands in the state outside a pure atom.
fn occurs_elsewhere(state: &Heap, k: usize, term: Term) -> bool
    ensures { result ≡ occurs_outside state.now k term }
{
    match term {
        Term::Univ(n) => another_has(n, k, state.pure()) || some_spatial_has(n, state.spatial()),
        Term::Nil | Term::Exist(_) => false,
    }
}

/// The side of an equation that gives way, by the first test that holds.
fn side(p: u16, state: &Heap, k: usize, atom: Pure) -> Option<Side>
    ensures { result ≡ state_side p state.now k atom }
{
    let Pure::Eq(left, right) = atom else {
        return None;
    };
    if same_term(left, right) || is_logical(p, left) {
        return Some(Side::Left);
    }
    if is_logical(p, right) {
        return Some(Side::Right);
    }
    if occurs_elsewhere(state, k, left) {
        return Some(Side::Left);
    }
    if same_term(left, Term::Nil) && occurs_elsewhere(state, k, right) {
        return Some(Side::Right);
    }
    None
}

/// Rewrite by the first equation of which some side gives way.
pub fn state_rewrites(alloc: Global, p: u16, state: &Heap) -> Result<Vec<Rule>, OutOfMemory>
    ensures { IfOk result (λ v. v.items ≡ state_rewrites_of p state.now) }
{
    for (k, atom) in state.pure().iter().enumerate() {
        if let Some(side) = side(p, state, k, *atom) {
            return alone(alloc, Rule::Rewrite(k as u32, side));
        }
    }
    Ok(Vec::new(alloc))
}
