// How many maps of a companion's atoms to a bud's there are to look through for a link.
use heap_formula::{Heap, Spatial};

/// The most maps among which a link is looked for: where there is no link, all of them may be gone through.
const MOST_MAPS: u32 = 1_000;

fn are_alike(atom: &Spatial, other: &Spatial) -> bool {
    match (atom, other) {
        (Spatial::Cell(_, _), Spatial::Cell(_, _)) => true,
        (Spatial::Pred(predicate, _), Spatial::Pred(another, _)) => *predicate == *another,
        _ => false,
    }
}

/// How many atoms are cells, or of one predicate, as this one is.
fn count_alike(atoms: &[Spatial], atom: &Spatial) -> u32 {
    let mut count: u32 = 0;
    for other in atoms {
        if are_alike(atom, other) {
            count = count.saturating_add(1);
        }
    }
    count
}

/// Whether few maps send the companion's atoms to different ones of their kind.
pub fn has_few_maps(bud: &Heap, companion: &Heap) -> bool {
    let mut maps: u32 = 1;
    for (place, atom) in companion.spatial().iter().enumerate() {
        let taken = count_alike(&companion.spatial()[..place], atom);
        let free = count_alike(bud.spatial(), atom).saturating_sub(taken);
        maps = maps.saturating_mul(free);
    }
    maps <= MOST_MAPS
}
