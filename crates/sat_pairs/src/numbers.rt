// Terms by number: which are kept before each atom, and where.
ghost use Rattle.std.specs.Prelude.{◌≡◌, ◌<◌, ◌∷◌, length, map, nat_eq, IfOk};
ghost use Rattle.heap_formula.specs.declared.terms.Term.TheVariants.{Nil};
ghost use Rattle.pair_family.specs.Classes.{term_number};
ghost use Rattle.std.specs.List.{list_any};
ghost use Rattle.pair_family.specs.Folding.{spoken};
ghost use Rattle.heap_formula.specs.Fresh.{variables_from};
ghost use Rattle.sat_pairs.specs.Numbers.{numbered, with_numbers, with_pure_numbers, kept_numbers as kept_numbers_of};
ghost use Rattle.sat_pairs.specs.Numbers.{place_in, places_in, sides_of, count_from};

use cyc_basics::memory::OutOfMemory;
use heap_formula::{Pure, Spatial, Term};
use std::alloc::Global;

/// A number of each term's own.
pub fn number_of(term: Term) -> u64
    ensures { result ≡ term_number term }
{
    match term {
        Term::Nil => 0,
        Term::Univ(n) => 2 * (n as u64) + 1,
        Term::Exist(n) => 2 * (n as u64) + 2,
    }
}

fn has_number(numbers: &[u64], number: u64) -> bool
    ensures { result ≡ list_any (λ c. nat_eq c number) numbers.now }
{
    for other in numbers {
        if *other == number {
            return true;
        }
    }
    false
}

fn push_number(numbers: &mut Vec<u64>, number: u64) -> Result<(), OutOfMemory>
    ensures { IfOk result (λ _. numbers.new.items ≡ numbered numbers.old.items number) }
{
    if has_number(numbers, number) {
        return Ok(());
    }
    numbers.push(number)?;
    Ok(())
}

fn push_terms(numbers: &mut Vec<u64>, terms: &[Term]) -> Result<(), OutOfMemory>
    ensures { IfOk result (λ _. numbers.new.items ≡ with_numbers numbers.old.items terms.now) }
{
    for term in terms {
        push_number(numbers, number_of(*term))?;
    }
    Ok(())
}

/// Adds the numbers of the terms that an atom's base pair speaks of.
pub fn push_spoken(numbers: &mut Vec<u64>, atom: &Spatial) -> Result<(), OutOfMemory>
    ensures { IfOk result (λ _. numbers.new.items ≡ with_numbers numbers.old.items (spoken atom.now)) }
{
    match atom {
        Spatial::Cell(t, _) => push_number(numbers, number_of(*t)),
        Spatial::Pred(_, args) => push_terms(numbers, args.as_slice()),
    }
}

fn parameter_numbers(alloc: Global, k: u32) -> Result<Vec<u64>, OutOfMemory>
    ensures { IfOk result (λ v. v.items ≡ map term_number (Nil ∷ variables_from 0 k)) }
{
    let mut numbers = Vec::new(alloc);
    numbers.push(0)?;
    for i in 0..k {
        numbers.push(2 * (i as u64) + 1)?;
    }
    Ok(numbers)
}

/// The numbers of nil, of k parameters and of the terms of which the atoms' base pairs speak, each once.
pub fn kept_numbers(alloc: Global, k: u32, atoms: &[Spatial]) -> Result<Vec<u64>, OutOfMemory>
    ensures { IfOk result (λ v. v.items ≡ kept_numbers_of k atoms.now) }
{
    if atoms.is_empty() {
        return parameter_numbers(alloc, k);
    }
    let mut numbers = kept_numbers(alloc, k, &atoms[1..])?;
    push_spoken(&mut numbers, &atoms[0])?;
    Ok(numbers)
}

/// Adds the numbers of the sides of pure atoms.
pub fn push_pure(numbers: &mut Vec<u64>, atoms: &[Pure]) -> Result<(), OutOfMemory>
    ensures { IfOk result (λ _. numbers.new.items ≡ with_pure_numbers numbers.old.items atoms.now) }
{
    for atom in atoms {
        let (left, right) = sides(*atom);
        push_number(numbers, number_of(left))?;
        push_number(numbers, number_of(right))?;
    }
    Ok(())
}

/// The two sides of a pure atom.
pub fn sides(atom: Pure) -> (Term, Term)
    ensures { result ≡ sides_of atom }
{
    match atom {
        Pure::Eq(t, u) => (t, u),
        Pure::Neq(t, u) => (t, u),
    }
}

/// The first place of a number; the length where it is not there.
pub fn place_of(numbers: &[u64], number: u64) -> usize
    ensures { result ≡ place_in number numbers.now }
{
    for (i, other) in numbers.iter().enumerate() {
        if *other == number {
            return i;
        }
    }
    numbers.len()
}

/// The places of nil and of some terms; nil stands first.
pub fn places_of(alloc: Global, numbers: &[u64], terms: &[Term]) -> Result<Vec<usize>, OutOfMemory>
    ensures { IfOk result (λ v. v.items ≡ places_in numbers.now terms.now) }
{
    let mut places = Vec::new(alloc);
    places.push(0)?;
    for term in terms {
        places.push(place_of(numbers, number_of(*term)))?;
    }
    Ok(places)
}

/// The numbers below n.
pub fn numbers_below(alloc: Global, n: usize) -> Result<Vec<usize>, OutOfMemory>
    ensures { IfOk result (λ v. v.items ≡ count_from 0 n) }
{
    let mut numbers = Vec::new(alloc);
    for i in 0..n {
        numbers.push(i)?;
    }
    Ok(numbers)
}
