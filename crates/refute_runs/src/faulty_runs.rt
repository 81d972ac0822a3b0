// Runs that show that a program may fault, run for ever, or stop where its end does not hold.
use cyc_basics::memory::OutOfMemory;
use general_models::derivations::CaseStep;
use general_models::runs::{Ending, Pick};
use refute_unfoldings::Cell;
use std::alloc::Global;

/// The number that a step takes for a pick.
pub fn number_of(pick: &Pick) -> u64 {
    match pick {
        Pick::Cell(address, _) => *address,
        Pick::Jumps(jumps) => u64::from(*jumps),
    }
}

/// The fields that a step takes for a pick.
pub fn fields_of(pick: &Pick) -> &[u64] {
    match pick {
        Pick::Cell(_, fields) => fields.as_slice(),
        Pick::Jumps(_) => &[],
    }
}

/// How a run ends: it faults or comes back; or after so many steps it stops at an end that its state does not satisfy.
#[derive(Drop)]
pub enum Finish {
    Refutes(Ending),
    BreaksEnd(u32),
}

/// A run: the values of the program's variables and of the precondition's in its first state, the heap there, the
/// derivation that these satisfy the precondition, and what was picked at each `new` and each `if *`, in order.
#[derive(Drop)]
pub struct FaultyRun {
    pub stack: Vec<u64>,
    pub cells: Vec<Cell>,
    pub steps: Vec<CaseStep>,
    pub picks: Vec<Pick>,
    pub finish: Finish,
}

/// The picks of a run whose first state is known, and how it ends.
#[derive(Drop)]
pub struct Tail {
    pub picks: Vec<Pick>,
    pub finish: Finish,
}

/// Copies of the picks that were made.
pub fn made_picks(alloc: Global, picks: &[Option<Pick>]) -> Result<Vec<Pick>, OutOfMemory> {
    let mut made = Vec::new(alloc);
    for pick in picks.iter().flatten() {
        made.push(pick.clone()?)?;
    }
    Ok(made)
}
