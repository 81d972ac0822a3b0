// What may be picked in a state.
use cyc_basics::memory::OutOfMemory;
use general_models::runs::{FieldValues, Pick};
use goto_lang::Config;
use heap_formula::Command;
use std::alloc::Global;

/// What a step may take: a pick, if the command needs one; and how far it is from the usual pick, which is the least
/// number that stands nowhere in the state, with nil in all fields.
#[derive(Drop)]
pub struct Offer {
    pub pick: Option<Pick>,
    pub deviations: u32,
}

/// Which addresses new cells take: first the least that stands nowhere in the state, and others too; or the one above
/// all numbers of the state, with nil in all fields.
#[derive(Clone, Copy)]
pub enum Addresses {
    Least,
    Above,
}

/// The numbers but 0 that stand in a state, ascending, each once.
pub fn values_in(alloc: Global, config: &Config) -> Result<Vec<u64>, OutOfMemory> {
    let mut values = Vec::new(alloc);
    values.extend_from_slice(config.stack.as_slice())?;
    for address in &config.heap.addresses(alloc)? {
        values.push(*address)?;
        if let Some(fields) = config.heap.get(*address) {
            values.extend_from_slice(fields)?;
        }
    }
    values.retain(|value| *value > 0);
    values.sort_unstable();
    values.dedup();
    Ok(values)
}

/// The least number from one on that is none of these, which ascend.
fn free_from(values: &[u64], first: u64) -> u64 {
    let mut free = first;
    for value in values {
        if *value == free {
            free = free.saturating_add(1);
        }
    }
    free
}

/// The offers at `new` of so many fields.
#[derive(Drop)]
struct NewCells {
    alloc: Global,
    count: usize,
    offers: Vec<Offer>,
}

impl NewCells {
    /// Offers a cell whose fields all have one value.
    fn offer(&mut self, address: u64, field: u64, deviations: u32) -> Result<(), OutOfMemory> {
        let fields = vec![in self.alloc; field; self.count]?;
        self.offers.push(Offer {
            pick: Some(Pick::Cell(address, FieldValues::from_vec(fields))),
            deviations,
        })?;
        Ok(())
    }

    /// Offers a fresh cell with the numbers that stand in the state.
    fn offer_fields(&mut self, fresh: u64, values: &[u64]) -> Result<(), OutOfMemory> {
        for value in values {
            self.offer(fresh, *value, 1)?;
        }
        Ok(())
    }

    /// Offers a cell at each number that stands in the state and is no address.
    fn offer_dangling(
        &mut self,
        config: &Config,
        values: &[u64],
        other: u64,
    ) -> Result<(), OutOfMemory> {
        for value in values {
            if config.heap.get(*value).is_none() {
                self.offer(*value, 0, 1)?;
                self.offer(*value, other, 2)?;
            }
        }
        Ok(())
    }
}

fn new_cells(alloc: Global, config: &Config, count: u8) -> Result<Vec<Offer>, OutOfMemory> {
    let values = values_in(alloc, config)?;
    let fresh = free_from(&values, 1);
    let other = free_from(&values, fresh.saturating_add(1));
    let mut cells = NewCells {
        alloc,
        count: count as usize,
        offers: Vec::new(alloc),
    };
    cells.offer(fresh, 0, 0)?;
    cells.offer(fresh, other, 1)?;
    cells.offer(fresh, fresh, 1)?;
    cells.offer_fields(fresh, &values)?;
    cells.offer_dangling(config, &values, other)?;
    Ok(cells.offers)
}

/// A cell above all numbers of the state.
fn cell_above(alloc: Global, config: &Config, count: u8) -> Result<Vec<Offer>, OutOfMemory> {
    let mut cells = NewCells {
        alloc,
        count: count as usize,
        offers: Vec::new(alloc),
    };
    cells.offer(config.greatest().saturating_add(1), 0, 0)?;
    Ok(cells.offers)
}

fn of_pick(pick: Option<Pick>) -> Offer {
    Offer {
        pick,
        deviations: 0,
    }
}

/// What a command may take in a state.
pub fn offers(
    alloc: Global,
    config: &Config,
    command: &Command,
    addresses: Addresses,
) -> Result<Vec<Offer>, OutOfMemory> {
    match command {
        Command::New(_, count) => match addresses {
            Addresses::Least => new_cells(alloc, config, *count),
            Addresses::Above => cell_above(alloc, config, *count),
        },
        Command::IfAny(_) => {
            let jump = of_pick(Some(Pick::Jumps(true)));
            let next = of_pick(Some(Pick::Jumps(false)));
            Ok(vec![in alloc; jump, next]?)
        }
        _ => Ok(vec![in alloc; of_pick(None)]?),
    }
}
