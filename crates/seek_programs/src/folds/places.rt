// Sets of places.
use cyc_basics::memory::OutOfMemory;
use std::alloc::Global;

/// At most eight places.
#[derive(Clone, Copy)]
pub struct Places {
    count: usize,
    places: [u32; 8],
}

impl Places {
    /// No places.
    pub fn none() -> Places {
        Places {
            count: 0,
            places: [0; 8],
        }
    }

    /// Adds a place, if there is room for it.
    pub fn push(&mut self, place: u32) {
        if let Some(slot) = self.places.get_mut(self.count) {
            *slot = place;
            self.count = self.count.saturating_add(1);
        }
    }

    /// The places in the order in which they came.
    pub fn as_slice(&self) -> &[u32] {
        &self.places[..self.count.min(8)]
    }
}

/// The sets of `least` to `most` of the places, where only the first eight places are taken, smaller sets first.
pub fn subsets(
    alloc: Global,
    places: &[u32],
    least: usize,
    most: usize,
) -> Result<Vec<Places>, OutOfMemory> {
    let mut all = Vec::new(alloc);
    for size in least..most.min(8) + 1 {
        for mask in 0..1u32 << places.len().min(8) {
            if mask.count_ones() as usize == size {
                all.push(masked(places, mask))?;
            }
        }
    }
    Ok(all)
}

/// The places that a mask of eight bits has.
fn masked(places: &[u32], mask: u32) -> Places {
    let mut chosen = Places::none();
    for (i, place) in places.iter().enumerate() {
        if i < 8 && mask >> i & 1 == 1 {
            chosen.push(*place);
        }
    }
    chosen
}
