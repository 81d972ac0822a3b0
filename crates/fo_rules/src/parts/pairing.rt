// Trace pairs of rules.
ghost use Rattle.std.specs.Prelude.{◌≡◌, ◌<◌, ◌≤◌, ◌+◌, ◌++◌, ◌∷◌, [], length, IfOk, OnOk};
ghost use Rattle.heap_formula.specs.Positions.{before};
ghost use Rattle.fo_formula.specs.Traces.{pairs_from, same_pairs, child_pairs};

use cyc_basics::limits::MOST_LEFT;
use cyc_basics::memory::OutOfMemory;
use fo_formula::{FoAtom, Pair, Pairs};
use std::alloc::Global;

/// Every predicate atom is paired with itself.
pub fn pairs_of_same(alloc: Global, atoms: &[FoAtom]) -> Result<Pairs, OutOfMemory>
    requires { length atoms.now ≤ MOST_LEFT }
    ensures { IfOk result (λ p. p ≡ same_pairs atoms.now) }
{
    let mut pairs = Pairs::new(alloc);
    for (place, atom) in atoms.iter().enumerate() {
        if let FoAtom::Predicate { .. } = atom {
            pairs.push(Pair {
                old: place as u8,
                new: place as u8,
                progress: false,
            })?;
        }
    }
    Ok(pairs)
}

fn place_before(i: usize, new: usize) -> usize
    requires { new < MOST_LEFT }
    ensures value { result ≡ before i new }
    ensures fits { result ≤ MOST_LEFT }
{
    if new < i { new } else { new + 1 }
}

/// Each predicate atom of `kept` is paired with the place where it stood before the atom at place `i` was removed.
pub fn pairs_of_kept(alloc: Global, kept: &[FoAtom], i: usize) -> Result<Pairs, OutOfMemory>
    requires { length kept.now ≤ MOST_LEFT }
    ensures { IfOk result (λ p. p ≡ pairs_from (before i) 0 kept.now) }
{
    let mut pairs = Pairs::new(alloc);
    for (new, atom) in kept.iter().enumerate() {
        if let FoAtom::Predicate { .. } = atom {
            pairs.push(Pair {
                old: place_before(i, new) as u8,
                new: new as u8,
                progress: false,
            })?;
        }
    }
    Ok(pairs)
}

/// Adds pairs by which each predicate atom, from a place on, is a child of the one at place `k`.
pub fn push_children(
    pairs: &mut Pairs,
    k: usize,
    first: usize,
    atoms: &[FoAtom],
) -> Result<(), OutOfMemory>
    requires k_fits { k < MOST_LEFT }
    requires fits { first + length atoms.now ≤ 64 }
    ensures { OnOk result (pairs.new ≡ pairs.old ++ child_pairs k first atoms.now) }
{
    for (i, atom) in atoms.iter().enumerate() {
        if let FoAtom::Predicate { .. } = atom {
            pairs.push(Pair {
                old: k as u8,
                new: (first + i) as u8,
                progress: true,
            })?;
        }
    }
    Ok(())
}

/// Adds the pair by which an atom at place `n`, if it is a predicate atom, goes on from place `i`.
pub fn push_copy(pairs: &mut Pairs, i: usize, n: usize, atom: &FoAtom) -> Result<(), OutOfMemory>
    requires i_fits { i ≤ MOST_LEFT }
    requires n_fits { n ≤ MOST_LEFT }
    ensures { OnOk result (pairs.new ≡ pairs.old ++ pairs_from (λ _. i) n (atom.now ∷ [])) }
{
    if let FoAtom::Predicate { .. } = atom {
        pairs.push(Pair {
            old: i as u8,
            new: n as u8,
            progress: false,
        })?;
    }
    Ok(())
}
