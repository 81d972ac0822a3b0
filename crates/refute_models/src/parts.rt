// In which parts of a heap a question holds.
use crate::cell_sets::CellSet;
use cyc_basics::memory::OutOfMemory;

/// A set of cells of which something holds, and the pairs of values, in ascending order, that its derivation needs to
/// differ.
#[derive(Clone, Drop)]
pub struct Part {
    pub cells: CellSet,
    pub apart: Vec<(u64, u64)>,
}

/// Adds pairs to others.
pub fn add_pairs(pairs: &mut Vec<(u64, u64)>, others: &[(u64, u64)]) -> Result<(), OutOfMemory> {
    for pair in others {
        if !pairs.contains(pair) {
            pairs.push(*pair)?;
        }
    }
    Ok(())
}

fn place_of(parts: &[Part], cells: CellSet) -> Option<usize> {
    for (place, part) in parts.iter().enumerate() {
        if part.cells == cells {
            return Some(place);
        }
    }
    None
}

/// Keeps a part, unless there is one of the same cells with at most as many pairs; whether its cells are new.
pub fn keep_part(parts: &mut Vec<Part>, part: Part) -> Result<bool, OutOfMemory> {
    let Some(place) = place_of(parts, part.cells) else {
        parts.push(part)?;
        return Ok(true);
    };
    if let Some(other) = parts.get_mut(place) {
        if part.apart.len() < other.apart.len() {
            *other = part;
        }
    }
    Ok(false)
}

/// The part with the fewest pairs.
pub fn least_part(parts: Vec<Part>) -> Option<Part> {
    let mut least: Option<Part> = None;
    for part in parts {
        let is_less = match &least {
            Some(other) => part.apart.len() < other.apart.len(),
            None => true,
        };
        if is_less {
            least = Some(part);
        }
    }
    least
}
