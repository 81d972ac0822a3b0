// Whether a state is like another, with more.
ghost use Rattle.std.specs.Prelude.{◌≡◌, ◌↔◌, IsTrue};
ghost use Rattle.heap_formula.specs.Words.{Each};
ghost use Rattle.goto_lang.specs.States.{state_of};
ghost use Rattle.general_models.specs.Growing.{IsPaired, EachPair, Alike, AreOneToOne, IsPairedOnce, HasLikeCell};

use crate::runs::growth::ValuePair;
use goto_lang::{Cells, Config};

fn is_pair_of(pair: ValuePair, before: u64, after: u64) -> bool
    ensures { IsTrue result ↔ ((pair.before ≡ before) × (pair.after ≡ after)) }
{
    u64::from(pair.before) == before && u64::from(pair.after) == after
}

/// Whether the two values are a pair.
fn is_paired(pairs: &[ValuePair], before: u64, after: u64) -> bool
    ensures { IsTrue result ↔ IsPaired pairs.now before after }
{
    for pair in pairs {
        if is_pair_of(*pair, before, after) {
            return true;
        }
    }
    false
}

/// Whether the two lists are of one length, and the two values at each place are a pair.
fn are_paired(pairs: &[ValuePair], befores: &[u64], afters: &[u64]) -> bool
    ensures { IsTrue result ↔ EachPair (IsPaired pairs.now) befores.now afters.now }
{
    if befores.len() != afters.len() {
        return false;
    }
    for i in 0..befores.len() {
        if !is_paired(pairs, befores[i], afters[i]) {
            return false;
        }
    }
    true
}

/// Whether each pair with one part of this pair is this pair.
fn is_paired_once(pairs: &[ValuePair], pair: ValuePair) -> bool
    ensures { IsTrue result ↔ IsPairedOnce pairs.now pair }
{
    for other in pairs {
        if (other.before == pair.before) != (other.after == pair.after) {
            return false;
        }
    }
    true
}

fn are_one_to_one(pairs: &[ValuePair]) -> bool
    ensures { IsTrue result ↔ AreOneToOne pairs.now }
{
    for pair in pairs {
        if !is_paired_once(pairs, *pair) {
            return false;
        }
    }
    true
}

/// Whether the second heap has a cell like the first heap's at this pair, if there is one.
fn has_like_cell(pairs: &[ValuePair], one: &Cells, other: &Cells, pair: ValuePair) -> bool
    ensures { IsTrue result ↔ HasLikeCell pairs.now one.now other.now pair }
{
    match one.get(u64::from(pair.before)) {
        None => true,
        Some(fields) => match other.get(u64::from(pair.after)) {
            None => false,
            Some(others) => are_paired(pairs, fields, others),
        },
    }
}

fn has_like_cells(pairs: &[ValuePair], one: &Cells, other: &Cells) -> bool
    ensures { IsTrue result ↔ Each (HasLikeCell pairs.now one.now other.now) pairs.now }
{
    for pair in pairs {
        if !has_like_cell(pairs, one, other, *pair) {
            return false;
        }
    }
    true
}

/// Whether these pairs make the second state like the first, with more.
pub fn are_alike(pairs: &[ValuePair], one: &Config, other: &Config) -> bool
    ensures { IsTrue result ↔ Alike (IsPaired pairs.now) (state_of one.now) (state_of other.now) }
{
    if one.line != other.line {
        return false;
    }
    if !is_paired(pairs, 0, 0) {
        return false;
    }
    if !are_one_to_one(pairs) {
        return false;
    }
    if !are_paired(pairs, one.stack.as_slice(), other.stack.as_slice()) {
        return false;
    }
    has_like_cells(pairs, &one.heap, &other.heap)
}
