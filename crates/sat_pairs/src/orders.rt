// The order in which the atoms of a symbolic heap are taken in, as the tables of a join are ordered.
ghost use Rattle.std.specs.Prelude.{◌≡◌, ◌<◌, ◌&&◌, IfOk, length, count_by};
ghost use Rattle.pair_family.specs.Frames.{has_term as has_term_of};
ghost use Rattle.pair_family.specs.JoinOrder.{speaks_of as atom_speaks, is_new as is_new_in, is_shared as is_shared_in};
ghost use Rattle.pair_family.specs.JoinOrder.{is_needed as is_needed_in, cost_at, cost_of as cost_in};
ghost use Rattle.pair_family.specs.JoinOrder.{is_less as costs_less, cheapest as cheapest_of, join_order};
ghost use Rattle.pair_family.specs.Reordering.{Reorders};
ghost use Rattle.sat_pairs.specs.Joins.{IsJoined, pair_of_cost};

use crate::numbers::number_of;
use cyc_basics::memory::OutOfMemory;
use heap_formula::{Spatial, Term};
use std::alloc::Global;

/// What it costs to take an atom next: how many of its terms are needed after it and new, and how many are needed.
#[derive(Clone, Copy)]
struct Cost {
    new: usize,
    needed: usize,
}

impl Cost {
    fn is_less(self, other: Cost) -> bool
        ensures { result ≡ costs_less (pair_of_cost self) (pair_of_cost other) }
    {
        self.new < other.new || (self.new == other.new && self.needed < other.needed)
    }
}

fn has_term(terms: &[Term], term: Term) -> bool
    ensures { result ≡ has_term_of terms.now term }
{
    for other in terms {
        if number_of(*other) == number_of(term) {
            return true;
        }
    }
    false
}

/// Whether the atom's base pair speaks of the term.
fn speaks_of(atom: &Spatial, term: Term) -> bool
    ensures { result ≡ atom_speaks term atom.now }
{
    match atom {
        Spatial::Cell(t, _) => has_term(&[*t], term),
        Spatial::Pred(_, args) => has_term(args.as_slice(), term),
    }
}

/// Whether none of the atoms speaks of the term.
fn is_new(taken: &[Spatial], term: Term) -> bool
    ensures { result ≡ is_new_in taken.now term }
{
    for atom in taken {
        if speaks_of(atom, term) {
            return false;
        }
    }
    true
}

/// How many of the atoms speak of the term.
fn count_speaking(atoms: &[Spatial], term: Term) -> usize
    ensures { result ≡ count_by (atom_speaks term) atoms.now }
{
    atoms.iter().filter(|atom| speaks_of(atom, term)).count()
}

fn is_shared(left: &[Spatial], term: Term) -> bool
    ensures { result ≡ is_shared_in left.now term }
{
    count_speaking(left, term) >= 2
}

/// Whether the term is kept after an atom with it is taken: a parameter, or one of which another atom speaks.
fn is_needed(k: u32, left: &[Spatial], term: Term) -> bool
    ensures { result ≡ is_needed_in k left.now term }
{
    match term {
        Term::Nil => false,
        Term::Univ(n) => (n as u32) < k || is_shared(left, term),
        Term::Exist(_) => is_shared(left, term),
    }
}

/// How many of the terms are needed and new.
fn count_new(k: u32, taken: &[Spatial], left: &[Spatial], terms: &[Term]) -> usize
    ensures { result ≡ count_by (λ t. is_needed_in k left.now t && is_new_in taken.now t)
        terms.now }
{
    terms
        .iter()
        .filter(|term| is_needed(k, left, **term) && is_new(taken, **term))
        .count()
}

/// How many of the terms are needed.
fn count_needed(k: u32, left: &[Spatial], terms: &[Term]) -> usize
    ensures { result ≡ count_by (is_needed_in k left.now) terms.now }
{
    terms
        .iter()
        .filter(|term| is_needed(k, left, **term))
        .count()
}

fn cost_of_terms(k: u32, taken: &[Spatial], left: &[Spatial], terms: &[Term]) -> Cost
    ensures { pair_of_cost result ≡ cost_at k taken.now left.now terms.now }
{
    let new = count_new(k, taken, left, terms);
    let needed = count_needed(k, left, terms);
    Cost { new, needed }
}

fn cost_of(k: u32, taken: &[Spatial], left: &[Spatial], atom: &Spatial) -> Cost
    ensures { pair_of_cost result ≡ cost_in k taken.now left.now atom.now }
{
    match atom {
        Spatial::Cell(t, _) => cost_of_terms(k, taken, left, &[*t]),
        Spatial::Pred(_, args) => cost_of_terms(k, taken, left, args.as_slice()),
    }
}

/// The place of an atom that costs least; the first of them.
fn cheapest(k: u32, taken: &[Spatial], left: &[Spatial]) -> usize
    requires { 0 < length left.now }
    ensures place { result ≡ cheapest_of k taken.now left.now }
    ensures within { result < length left.now }
{
    let mut best = 0;
    let mut least = cost_of(k, taken, left, &left[0]);
    for (place, atom) in left.iter().enumerate() {
        let cost = cost_of(k, taken, left, atom);
        if cost.is_less(least) {
            best = place;
            least = cost;
        }
    }
    best
}

/// Some atoms, and then others: always one that costs least.
fn joined(k: u32, taken: Vec<Spatial>, others: Vec<Spatial>) -> Result<Vec<Spatial>, OutOfMemory>
    ensures { IfOk result (λ v. IsJoined k taken.items others.items v.items) }
{
    let mut ordered = taken;
    let mut left = others;
    while !left.is_empty() {
        let place = cheapest(k, &ordered, &left);
        let atom = left.remove(place);
        ordered.push(atom)?;
    }
    Ok(ordered)
}

/// The atoms in the order of a join: always one after which the fewest terms are needed that are new, and of these one
/// with the fewest terms that are needed.
pub fn in_join_order(alloc: Global, k: u32, atoms: &[Spatial]) -> Result<Vec<Spatial>, OutOfMemory>
    ensures order { IfOk result (λ v. v.items ≡ join_order k atoms.now) }
    ensures all { IfOk result (λ v. Reorders v.items atoms.now) }
{
    let left = Vec::from_slice(alloc, atoms)?;
    joined(k, Vec::new(alloc), left)
}
