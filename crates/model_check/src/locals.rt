// The values that a heap forces on the locals of a formula.
ghost use Rattle.std.specs.Prelude.{◌≡◌, ◌<◌, ◌↔◌, Bool, true, false, Ok, IsTrue, IfOk, OnOk, MatchOption, Some, None};
ghost use Rattle.std.specs.Prelude.{vec_len, slice_get, slice_index};
ghost use Rattle.heap_formula.specs.Words.{Each};
ghost use Rattle.heap_formula.specs.Cells.{cell_at};
ghost use Rattle.model_check.specs.Steps.{target, steps_of as all_steps};
ghost use Rattle.model_check.specs.ForcedLocals.{local_value, term_value, field_of as cell_field, target_of, Sets};
ghost use Rattle.model_check.specs.ForcedLocals.{Follows, Passes, AreForced, Evaluates};
ghost use Rattle.heap_formula.specs.Values.{Stack, value, values};
ghost use Rattle.heap_formula.specs.Meaning.{PureHolds};
ghost use Rattle.model_check.specs.Constructive.{IsConstructive, CellFits, Fits, IsOnly};
ghost use Rattle.model_check.specs.ForcedLocals.{or_zero, stack_of};

use crate::known::{ValueStep, steps_of};
use cyc_basics::memory::OutOfMemory;
use goto_lang::Cells;
use heap_formula::{Heap, Pure, Spatial, Term};
use std::alloc::Global;

/// A local and its value.
#[derive(Clone, Copy)]
pub struct Local {
    pub number: u16,
    pub value: u64,
}

fn value_of_local(locals: &[Local], number: u16) -> Option<u64>
    ensures { result ≡ local_value locals.now number }
{
    for local in locals {
        if number == local.number {
            return Some(local.value);
        }
    }
    None
}

fn stack_value(stack: &[u64], n: u16) -> u64
    ensures { result ≡ slice_index stack.now n }
{
    if (n as usize) < stack.len() {
        stack[n as usize]
    } else {
        0
    }
}

fn value_of_term(stack: &[u64], locals: &[Local], term: Term) -> Option<u64>
    ensures { result ≡ term_value stack.now locals.now term }
{
    match term {
        Term::Nil => Some(0),
        Term::Univ(n) => Some(stack_value(stack, n)),
        Term::Exist(n) => value_of_local(locals, n),
    }
}

fn field_of(fields: &[u64], k: usize) -> Option<u64>
    ensures { result ≡ slice_get fields.now k }
{
    fields.get(k).copied()
}

/// A field of the cell at an address.
fn field_at(cells: &Cells, address: u64, k: usize) -> Option<u64>
    ensures { result ≡ cell_field (cell_at cells.now address) k }
{
    match cells.get(address) {
        None => None,
        Some(fields) => field_of(fields, k),
    }
}

/// What is known of a step's target: nothing, its value, or that no values fit.
#[derive(Clone, Copy)]
enum Forced {
    Unknown,
    Value(u64),
    Absent,
}

fn target_value(stack: &[u64], cells: &Cells, locals: &[Local], step: &ValueStep) -> Forced
    ensures { result ≡ target_of cells.now stack.now locals.now step.now }
{
    match step {
        ValueStep::Same(t, _) => match value_of_term(stack, locals, *t) {
            None => Forced::Unknown,
            Some(value) => Forced::Value(value),
        },
        ValueStep::Field(t, k, _) => match value_of_term(stack, locals, *t) {
            None => Forced::Unknown,
            Some(address) => match field_at(cells, address, *k) {
                None => Forced::Absent,
                Some(value) => Forced::Value(value),
            },
        },
    }
}

fn target_term(step: &ValueStep) -> Term
    ensures { result ≡ target step.now }
{
    match step {
        ValueStep::Same(_, u) => *u,
        ValueStep::Field(_, _, u) => *u,
    }
}

/// Gives a local without a value this one.
fn set_local(
    stack: &[u64],
    locals: &mut Vec<Local>,
    term: Term,
    value: u64,
) -> Result<(), OutOfMemory>
    ensures { OnOk result (Sets stack.now locals.old.items locals.new.items term value) }
{
    match term {
        Term::Nil => Ok(()),
        Term::Univ(_) => Ok(()),
        Term::Exist(number) => match value_of_local(locals, number) {
            Some(_) => Ok(()),
            None => {
                locals.push(Local { number, value })?;
                Ok(())
            }
        },
    }
}

/// Follows a step; false where no values fit.
fn follow(
    stack: &[u64],
    cells: &Cells,
    locals: &mut Vec<Local>,
    step: &ValueStep,
) -> Result<bool, OutOfMemory>
    ensures { OnOk result ((b : Bool) → result ≡ Ok b
        → Follows cells.now stack.now step.now locals.old.items locals.new.items b) }
{
    match target_value(stack, cells, locals, step) {
        Forced::Unknown => Ok(true),
        Forced::Absent => Ok(false),
        Forced::Value(value) => {
            set_local(stack, locals, target_term(step), value)?;
            Ok(true)
        }
    }
}

/// Follows each step once.
fn follow_all(
    stack: &[u64],
    cells: &Cells,
    locals: &mut Vec<Local>,
    steps: &[ValueStep],
) -> Result<bool, OutOfMemory>
    requires { AreForced cells.now stack.now steps.now locals.old.items }
    ensures { OnOk result ((b : Bool) → result ≡ Ok b
        → Passes cells.now stack.now steps.now (vec_len locals.old) (vec_len locals.new) locals.new.items b) }
{
    for step in steps {
        if !follow(stack, cells, locals, step)? {
            return Ok(false);
        }
    }
    Ok(true)
}

/// The values of the locals that steps force, none where nothing fits.
fn evaluate(
    alloc: Global,
    stack: &[u64],
    cells: &Cells,
    steps: &[ValueStep],
) -> Result<Option<Vec<Local>>, OutOfMemory>
    ensures { IfOk result (Evaluates cells.now stack.now steps.now) }
{
    let mut locals = Vec::new(alloc);
    for _round in 0..usize::MAX {
        let before = locals.len();
        if !follow_all(stack, cells, &mut locals, steps)? {
            return Ok(None);
        }
        if locals.len() == before {
            return Ok(Some(locals));
        }
    }
    let _count = locals.len();
    unreachable!()
}

fn value_now(stack: &[u64], locals: &[Local], term: Term) -> u64
    ensures { result ≡ or_zero (term_value stack.now locals.now term) }
{
    match value_of_term(stack, locals, term) {
        None => 0,
        Some(value) => value,
    }
}

/// The value of a term, where a local without a value is 0.
pub fn term_in(stack: &[u64], locals: &[Local], term: Term) -> u64
    ensures { result ≡ value stack.now (stack_of locals.now) term }
{
    value_now(stack, locals, term)
}

pub fn terms_in(
    alloc: Global,
    stack: &[u64],
    locals: &[Local],
    terms: &[Term],
) -> Result<Vec<u64>, OutOfMemory>
    ensures { IfOk result (λ v. v.items ≡ values stack.now (stack_of locals.now) terms.now) }
{
    let mut out = Vec::new(alloc);
    for term in terms {
        out.push(term_in(stack, locals, *term))?;
    }
    Ok(out)
}

fn pure_fits(stack: &[u64], locals: &[Local], atom: &Pure) -> bool
    ensures { IsTrue result ↔ PureHolds stack.now (stack_of locals.now) atom.now }
{
    match atom {
        Pure::Eq(t, u) => term_in(stack, locals, *t) == term_in(stack, locals, *u),
        Pure::Neq(t, u) => term_in(stack, locals, *t) != term_in(stack, locals, *u),
    }
}

fn pures_fit(stack: &[u64], locals: &[Local], atoms: &[Pure]) -> bool
    ensures { IsTrue result ↔ Each (PureHolds stack.now (stack_of locals.now)) atoms.now }
{
    for atom in atoms {
        if !pure_fits(stack, locals, atom) {
            return false;
        }
    }
    true
}

fn same_values(a: &[u64], b: &[u64]) -> bool
    ensures { IsTrue result ↔ (a.now ≡ b.now) }
{
    *a == *b
}

/// Whether a cell of the heap has these fields.
fn has_cell(cells: &Cells, address: u64, fields: &[u64]) -> bool
    ensures { IsTrue result ↔ (cell_at cells.now address ≡ Some fields.now) }
{
    match cells.get(address) {
        None => false,
        Some(found) => same_values(found, fields),
    }
}

fn spatial_fits(
    alloc: Global,
    stack: &[u64],
    cells: &Cells,
    locals: &[Local],
    atom: &Spatial,
) -> Result<bool, OutOfMemory>
    ensures { IfOk result (λ yes. IsTrue yes ↔ CellFits cells.now stack.now (stack_of locals.now) atom.now) }
{
    match atom {
        Spatial::Cell(t, ts) => {
            let fields = terms_in(alloc, stack, locals, ts.as_slice())?;
            Ok(has_cell(cells, term_in(stack, locals, *t), &fields))
        }
        Spatial::Pred(_, _) => Ok(true),
    }
}

fn spatials_fit(
    alloc: Global,
    stack: &[u64],
    cells: &Cells,
    locals: &[Local],
    atoms: &[Spatial],
) -> Result<bool, OutOfMemory>
    ensures { IfOk result (λ yes. IsTrue yes ↔ Each (CellFits cells.now stack.now (stack_of locals.now)) atoms.now) }
{
    for atom in atoms {
        if !spatial_fits(alloc, stack, cells, locals, atom)? {
            return Ok(false);
        }
    }
    Ok(true)
}

/// Whether the pure atoms hold and the cells are cells of the heap.
fn fits(
    alloc: Global,
    stack: &[u64],
    cells: &Cells,
    locals: &[Local],
    heap: &Heap,
) -> Result<bool, OutOfMemory>
    ensures { IfOk result (λ yes. IsTrue yes ↔ Fits cells.now stack.now (stack_of locals.now) heap.now) }
{
    if !pures_fit(stack, locals, heap.pure()) {
        return Ok(false);
    }
    spatials_fit(alloc, stack, cells, locals, heap.spatial())
}

fn evaluate_heap(
    alloc: Global,
    stack: &[u64],
    cells: &Cells,
    heap: &Heap,
) -> Result<Option<Vec<Local>>, OutOfMemory>
    ensures { IfOk result (Evaluates cells.now stack.now (all_steps heap.now)) }
{
    let steps = steps_of(alloc, heap)?;
    evaluate(alloc, stack, cells, &steps)
}

/// The only values of the formula's locals that fit the stack and the heap, or none.
pub fn locals_of(
    alloc: Global,
    stack: &[u64],
    cells: &Cells,
    heap: &Heap,
) -> Result<Option<Vec<Local>>, OutOfMemory>
    requires { IsConstructive heap.now }
    ensures { IfOk result (λ o. MatchOption o ((e : Stack) → Fits cells.now stack.now e heap.now
        → ⊥) (λ v. IsOnly cells.now stack.now (stack_of v.items) heap.now)) }
{
    match evaluate_heap(alloc, stack, cells, heap)? {
        None => Ok(None),
        Some(locals) => {
            if fits(alloc, stack, cells, &locals, heap)? {
                Ok(Some(locals))
            } else {
                Ok(None)
            }
        }
    }
}
