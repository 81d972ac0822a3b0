// Whether a run refutes a claim of termination.
ghost use Rattle.std.specs.Prelude.{◌↔◌, ◌<◌, ◌≤◌, length, IsTrue, IfOk};
ghost use Rattle.heap_formula.specs.Meaning.{Satisfies};
ghost use Rattle.heap_formula.specs.Programs.{start_at, TerminationHolds};
ghost use Rattle.general_models.specs.Picks.{headroom_of};
ghost use Rattle.general_models.specs.Refuting.{IsRefuting};

use crate::runs::picks::{Pick, headroom};
use crate::runs::refuting::{Ending, is_refuting, start_state};
use crate::{CheckFault, satisfied_in_general};
use goto_lang::{Cells, Program, Stack};
use heap_formula::Heap;
use pred_defs::Defs;
use std::alloc::Global;

/// Whether a stack and a heap satisfy the precondition, and the run from there, at a line of the program, with these
/// picks and under their headroom, ends as is said: then the claim of termination does not hold. `most` bounds the
/// choices made for the precondition, as in `satisfied_in_general`.
pub fn refutes_termination(
    alloc: Global,
    defs: &Defs,
    program: &Program,
    line: u32,
    precondition: &Heap,
    stack: &Stack,
    heap: &Cells,
    picks: &[Pick],
    ending: &Ending,
    most: u64,
) -> Result<bool, CheckFault>
    requires from_one { 0 < line }
    requires to_last { line ≤ length program.now }
    ensures exact { IfOk result (λ yes. IsTrue yes ↔ (Satisfies defs.now.list stack.now heap.now precondition.now
        × IsRefuting program.now (headroom_of picks.now) picks.now
        (start_at program.now line stack.now heap.now) ending.now)) }
    ensures refuted { IfOk result (λ yes. IsTrue yes
        → ¬ TerminationHolds defs.now.list program.now line precondition.now) }
{
    let holds = satisfied_in_general(alloc, defs, stack, heap, precondition, most)?;
    if !holds {
        return Ok(false);
    }
    let start = start_state(alloc, program, line, stack, heap)?;
    let refuting = is_refuting(alloc, program, &start, headroom(picks), picks, ending)?;
    Ok(refuting)
}
