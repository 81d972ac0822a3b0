// The first place that is not constructive.
ghost use Rattle.std.specs.Prelude.{◌≡◌, ◌≤◌, length, [], ◌∷◌, Ok, IfOk, MatchOption};
ghost use Rattle.heap_formula.specs.Words.{Each};
ghost use Rattle.model_check.specs.Constructive.{IsConstructive, AreConstructive};
ghost use Rattle.model_check.specs.FirstPlaces.{IsFirstBad, IsFirstBadCase, IsFirstPlace};

use crate::known::is_constructive;
use cyc_basics::limits::MOST_PREDICATES;
use cyc_basics::memory::OutOfMemory;
use heap_formula::{Def, Heap};
use pred_defs::Defs;
use std::alloc::Global;

/// A place where some variable is not known: a case of a predicate, both from 0, or one of the asked formulas, from 0.
#[derive(Clone, Copy)]
pub enum Place {
    Case(u16, u32),
    Ask(u32),
}

/// A place as a number of 32 bits; so long a list does not fit in memory otherwise.
fn small(i: usize) -> Result<u32, OutOfMemory>
    ensures value { IfOk result (λ n. n ≡ i) }
    ensures fits { i ≤ u32.MAX → result ≡ Ok i }
{
    if i > u32::MAX as usize {
        return Err(OutOfMemory);
    }
    Ok(i as u32)
}

/// The first formula that is not constructive.
fn first_bad(alloc: Global, heaps: &[Heap]) -> Result<Option<u32>, OutOfMemory>
    ensures { IfOk result (λ o. MatchOption o (Each IsConstructive heaps.now) (λ i. IsFirstBad heaps.now i)) }
{
    for (i, heap) in heaps.iter().enumerate() {
        if !is_constructive(alloc, heap)? {
            return Ok(Some(small(i)?));
        }
    }
    Ok(None)
}

/// The first case that is not constructive.
fn first_bad_case(alloc: Global, defs: &[Def]) -> Result<Option<(u16, u32)>, OutOfMemory>
    requires { length defs.now ≤ MOST_PREDICATES }
    ensures { IfOk result (λ o. MatchOption o (AreConstructive defs.now) (λ p. IsFirstBadCase defs.now p.0 p.1)) }
{
    for (p, def) in defs.iter().enumerate() {
        if let Some(c) = first_bad(alloc, def.cases.heaps())? {
            return Ok(Some((p as u16, c)));
        }
    }
    Ok(None)
}

/// The first place that is not constructive among the cases of the definitions and these formulas; none where all are.
pub fn constructive_all(
    alloc: Global,
    defs: &Defs,
    asks: &[Heap],
) -> Result<Option<Place>, OutOfMemory>
    ensures first { IfOk result (λ o. IsFirstPlace defs.now.list asks.now o) }
{
    if let Some((p, c)) = first_bad_case(alloc, defs.as_slice())? {
        return Ok(Some(Place::Case(p, c)));
    }
    if let Some(d) = first_bad(alloc, asks)? {
        return Ok(Some(Place::Ask(d)));
    }
    Ok(None)
}

/// The first place that is not constructive among the cases of the definitions and this formula; none where all are.
/// A formula is constructive where each existential, and a case where each local, is forced to one value by the stack
/// and the heap: `nil` and the universals are known, an equation with a known side makes the other side known, and a
/// cell with a known address makes its fields known (Brotherston, Gorogiannis, Kanovich and Rowe 2016).
pub fn constructive(alloc: Global, defs: &Defs, ask: &Heap) -> Result<Option<Place>, OutOfMemory>
    ensures first { IfOk result (λ o. IsFirstPlace defs.now.list (ask.now ∷ []) o) }
{
    if let Some((p, c)) = first_bad_case(alloc, defs.as_slice())? {
        return Ok(Some(Place::Case(p, c)));
    }
    if is_constructive(alloc, ask)? {
        Ok(None)
    } else {
        Ok(Some(Place::Ask(0)))
    }
}
