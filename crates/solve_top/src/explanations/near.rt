//! Names that are near others.

use crate::explanations::statements::Head;
use cyc_basics::memory::OutOfMemory;
use std::alloc::Global;
use strsim::osa_distance;

/// How many edits may lead from a name to a near one, at most.
const MOST_EDITS: usize = 2;

/// The edits that lead from one name to another, if these are few: at most two, and at most one for two characters.
fn edits(alloc: Global, name: &str, other: &str) -> Result<Option<usize>, OutOfMemory> {
    let edits = osa_distance(alloc, name, other)?;
    let longest = name.chars().count().max(other.chars().count());
    if edits <= MOST_EDITS && edits <= longest / 2 {
        return Ok(Some(edits));
    }
    Ok(None)
}

/// The head whose name is nearest to a name, if one is near.
pub fn nearest<'a>(
    alloc: Global,
    heads: &[Head<'a>],
    name: &str,
) -> Result<Option<Head<'a>>, OutOfMemory> {
    let mut best = None;
    let mut fewest = MOST_EDITS + 1;
    for head in heads {
        if let Some(edits) = edits(alloc, name, head.name)?
            && edits < fewest
        {
            best = Some(*head);
            fewest = edits;
        }
    }
    Ok(best)
}

/// Whether two names are of one length and differ in one character.
fn differ_in_one(name: &str, other: &str) -> bool {
    match strsim::hamming(name, other) {
        Ok(count) => count == 1,
        Err(_) => false,
    }
}

/// Whether one of two names may be the other with a slip: they differ in case, or, where they have at least three
/// characters, in one of them.
pub fn is_slip(name: &str, other: &str) -> bool {
    if name == other {
        return false;
    }
    name.eq_ignore_ascii_case(other) || name.chars().count() >= 3 && differ_in_one(name, other)
}
