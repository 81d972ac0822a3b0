// Pairs of values under which a state is like another, with more.
use cyc_basics::memory::OutOfMemory;
use general_models::runs::ValuePair;
use goto_lang::{Cells, Config};
use std::alloc::Global;

/// Above so many pairs none are sought.
const MOST_PAIRS: usize = 64;

/// Pairs that were found: no value is in two of them on one side.
#[derive(Drop)]
struct Pairing {
    pairs: Vec<ValuePair>,
}

fn narrow(value: u64) -> Option<u32> {
    if value < 4_294_967_296 {
        Some(value as u32)
    } else {
        None
    }
}

impl Pairing {
    /// Whether the pair may be one, as far as the others tell; none where they do not.
    fn known(&self, pair: ValuePair) -> Option<bool> {
        for other in &self.pairs {
            if other.before == pair.before || other.after == pair.after {
                return Some(*other == pair);
            }
        }
        None
    }

    /// Takes a pair in, if it may be one.
    fn take(&mut self, before: u64, after: u64) -> Result<bool, OutOfMemory> {
        let (Some(before), Some(after)) = (narrow(before), narrow(after)) else {
            return Ok(false);
        };
        let pair = ValuePair { before, after };
        if let Some(may) = self.known(pair) {
            return Ok(may);
        }
        if self.pairs.len() >= MOST_PAIRS {
            return Ok(false);
        }
        self.pairs.push(pair)?;
        Ok(true)
    }

    /// The same for two lists, place by place.
    fn take_all(&mut self, befores: &[u64], afters: &[u64]) -> Result<bool, OutOfMemory> {
        if befores.len() != afters.len() {
            return Ok(false);
        }
        for (before, after) in befores.iter().zip(afters) {
            if !self.take(*before, *after)? {
                return Ok(false);
            }
        }
        Ok(true)
    }

    /// The same for the fields of the cells at a pair, if the first heap has one.
    fn take_cells(
        &mut self,
        one: &Cells,
        other: &Cells,
        pair: ValuePair,
    ) -> Result<bool, OutOfMemory> {
        match one.get(u64::from(pair.before)) {
            None => Ok(true),
            Some(befores) => match other.get(u64::from(pair.after)) {
                None => Ok(false),
                Some(afters) => self.take_all(befores, afters),
            },
        }
    }

    /// Takes in what follows from the pairs by the cells.
    fn close(&mut self, one: &Cells, other: &Cells) -> Result<bool, OutOfMemory> {
        for place in 0..MOST_PAIRS {
            let Some(pair) = self.pairs.get(place) else {
                break;
            };
            let pair = *pair;
            if !self.take_cells(one, other, pair)? {
                return Ok(false);
            }
        }
        Ok(true)
    }
}

/// The pairs that make the second state like the first: nil and the values of the stacks, and what follows from them.
pub fn pairs_between(
    alloc: Global,
    one: &Config,
    other: &Config,
) -> Result<Option<Vec<ValuePair>>, OutOfMemory> {
    let mut pairing = Pairing {
        pairs: Vec::new(alloc),
    };
    if one.line == other.line
        && pairing.take(0, 0)?
        && pairing.take_all(one.stack.as_slice(), other.stack.as_slice())?
        && pairing.close(&one.heap, &other.heap)?
    {
        return Ok(Some(pairing.pairs));
    }
    Ok(None)
}
