// One more turn: what the cases of the predicates give by what is found so far.
ghost use Rattle.std.specs.Prelude.{◌≡◌, ◌++◌, ◌∷◌, [], ℕ, IfOk};
ghost use Rattle.heap_formula.specs.Cells.{Cells as SomeHeap};
ghost use Rattle.heap_formula.specs.Meaning.{SpatialHolds};
ghost use Rattle.counter_model.specs.Bounds.{IsAmong};
ghost use Rattle.counter_model.specs.Findings.{found_if_asked, IsFound, FitsBehind, FitsCase, TakesCases, IsSettled};
ghost use Rattle.counter_model.specs.Findings.{UnlessGrown};

use crate::heaps::asking::unions;
use crate::heaps::table::Table;
use crate::heaps::values::may_all_hold;
use cyc_basics::memory::OutOfMemory;
use goto_lang::Cells;
use heap_formula::{Heap, exists_in_heap};
use pred_defs::Defs;
use std::alloc::Global;

/// Adds the heaps to those found for a question, and says whether one is new.
fn add_all(greatest: u32, table: &mut Table, q: usize, heaps: &[Cells]) -> Result<bool, OutOfMemory>
    ensures { IfOk result (λ grown. UnlessGrown grown table.old table.new ((h : SomeHeap)
        → IsAmong greatest heaps.now h → IsFound greatest table.old q h)) }
{
    let mut grown = false;
    for heap in heaps {
        let is_new = table.add(greatest, q, heap)?;
        grown = grown || is_new;
    }
    Ok(grown)
}

/// Adds what a case gives at these values of its parameters and locals.
fn refresh_at(
    alloc: Global,
    greatest: u32,
    table: &mut Table,
    q: usize,
    values: &[u64],
    locals: &[u64],
    case: &Heap,
) -> Result<bool, OutOfMemory>
    ensures { IfOk result (λ grown. UnlessGrown grown table.old table.new ((h : SomeHeap)
        → SpatialHolds (λ _. found_if_asked greatest table.old) values.now locals.now case.now.spatial h
        → IsFound greatest table.old q h)) }
{
    let (heaps, is_new) = unions(alloc, greatest, table, values, locals, case.spatial())?;
    let grown = add_all(greatest, table, q, heaps.as_slice())?;
    Ok(is_new || grown)
}

fn extended(alloc: Global, locals: &[u64], value: u64) -> Result<Vec<u64>, OutOfMemory>
    ensures { IfOk result (λ v. v.items ≡ locals.now ++ value ∷ []) }
{
    let mut longer = Vec::from_slice(alloc, locals)?;
    longer.push(value)?;
    Ok(longer)
}

/// Adds what a case gives at these values of its parameters and first locals, and so many more locals: all lists of
/// values from 0 to the greatest in lexicographic order, each made when it is tried, but those that begin in a way in
/// which the pure atoms can't hold.
fn refresh_behind(
    alloc: Global,
    greatest: u32,
    table: &mut Table,
    q: usize,
    values: &[u64],
    case: &Heap,
    locals: &[u64],
    left: u32,
) -> Result<bool, OutOfMemory>
    ensures { IfOk result (λ grown. UnlessGrown grown table.old table.new ((h : SomeHeap)
        → FitsBehind greatest (found_if_asked greatest table.old) values.now h case.now locals.now left
        → IsFound greatest table.old q h)) }
{
    if !may_all_hold(values, locals, case.pure()) {
        return Ok(false);
    }
    if left == 0 {
        return refresh_at(alloc, greatest, table, q, values, locals, case);
    }
    let mut grown = false;
    for value in 0..greatest as u64 + 1 {
        let longer = extended(alloc, locals, value)?;
        let is_new = refresh_behind(alloc, greatest, table, q, values, case, &longer, left - 1)?;
        grown = grown || is_new;
    }
    Ok(grown)
}

/// Adds what a case gives at these values of its parameters.
fn refresh_case(
    alloc: Global,
    greatest: u32,
    table: &mut Table,
    q: usize,
    values: &[u64],
    case: &Heap,
) -> Result<bool, OutOfMemory>
    ensures { IfOk result (λ grown. UnlessGrown grown table.old table.new ((h : SomeHeap)
        → FitsCase greatest (found_if_asked greatest table.old) values.now h case.now
        → IsFound greatest table.old q h)) }
{
    let count = exists_in_heap(case);
    refresh_behind(alloc, greatest, table, q, values, case, &[], count)
}

fn refresh_cases(
    alloc: Global,
    greatest: u32,
    table: &mut Table,
    q: usize,
    values: &[u64],
    cases: &[Heap],
) -> Result<bool, OutOfMemory>
    ensures { IfOk result (λ grown. UnlessGrown grown table.old table.new
        (TakesCases greatest table.old q values.now cases.now)) }
{
    let mut grown = false;
    for case in cases {
        let is_new = refresh_case(alloc, greatest, table, q, values, case)?;
        grown = grown || is_new;
    }
    Ok(grown)
}

fn refresh_question(
    alloc: Global,
    defs: &Defs,
    greatest: u32,
    table: &mut Table,
    q: usize,
) -> Result<bool, OutOfMemory>
    ensures { IfOk result (λ grown. UnlessGrown grown table.old table.new
        (IsSettled defs.now.list greatest table.old q)) }
{
    match table.question(q)? {
        None => Ok(false),
        Some(question) => {
            let cases = defs.cases(question.predicate());
            refresh_cases(alloc, greatest, table, q, question.values(), cases)
        }
    }
}

/// Adds what the cases of the predicates give, for each question once, and says whether something is new.
pub fn refresh_all(
    alloc: Global,
    defs: &Defs,
    greatest: u32,
    table: &mut Table,
) -> Result<bool, OutOfMemory>
    ensures { IfOk result (λ grown. UnlessGrown grown table.old table.new ((q : ℕ)
        → IsSettled defs.now.list greatest table.old q)) }
{
    let mut grown = false;
    for q in 0..table.len() {
        let is_new = refresh_question(alloc, defs, greatest, table, q)?;
        grown = grown || is_new;
    }
    Ok(grown)
}
