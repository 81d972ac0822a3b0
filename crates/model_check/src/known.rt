// Which terms of a formula are known.
ghost use Rattle.std.specs.Prelude.{◌≡◌, ◌<◌, ◌≤◌, ◌++◌, ◌↔◌, IsTrue, IfOk, OnOk, vec_len};
ghost use Rattle.heap_formula.specs.Words.{Each};
ghost use Rattle.heap_formula.specs.Closedness.{InPure, InSpatial, InHeap};
ghost use Rattle.model_check.specs.Constructive.{IsConstructive};
ghost use Rattle.cyc_basics.specs.Words.{IsMember};
ghost use Rattle.model_check.specs.Steps.{source, target, IsKnownIn, AreLearned, Learns, AllTaken, pure_steps};
ghost use Rattle.model_check.specs.Steps.{field_steps, spatial_steps, steps_of};

use cyc_basics::memory::OutOfMemory;
use heap_formula::{Heap, Pure, Spatial, Term};
use std::alloc::Global;

/// A known term makes another one known: as the other side of an equation, or as a field of the cell at its value.
#[derive(Clone, Copy)]
pub enum ValueStep {
    Same(Term, Term),
    Field(Term, usize, Term),
}

fn contains_term(terms: &[Term], term: Term) -> bool
    ensures { IsTrue result ↔ IsMember term terms.now }
{
    for other in terms {
        if *other == term {
            return true;
        }
    }
    false
}

/// Whether a term is `nil`, a universal or one of these.
pub fn is_known(known: &[Term], term: Term) -> bool
    ensures { IsTrue result ↔ IsKnownIn known.now term }
{
    match term {
        Term::Nil => true,
        Term::Univ(_) => true,
        Term::Exist(_) => contains_term(known, term),
    }
}

fn push_pure_steps(steps: &mut Vec<ValueStep>, atom: &Pure) -> Result<(), OutOfMemory>
    ensures { OnOk result (steps.new.items ≡ steps.old.items ++ pure_steps atom.now) }
{
    if let Pure::Eq(t, u) = atom {
        steps.push(ValueStep::Same(*t, *u))?;
        steps.push(ValueStep::Same(*u, *t))?;
    }
    Ok(())
}

fn push_field_steps(
    steps: &mut Vec<ValueStep>,
    address: Term,
    fields: &[Term],
) -> Result<(), OutOfMemory>
    ensures { OnOk result (steps.new.items ≡ steps.old.items ++ field_steps address 0 fields.now) }
{
    for (k, field) in fields.iter().enumerate() {
        steps.push(ValueStep::Field(address, k, *field))?;
    }
    Ok(())
}

fn push_spatial_steps(steps: &mut Vec<ValueStep>, atom: &Spatial) -> Result<(), OutOfMemory>
    ensures { OnOk result (steps.new.items ≡ steps.old.items ++ spatial_steps atom.now) }
{
    match atom {
        Spatial::Cell(t, ts) => push_field_steps(steps, *t, ts.as_slice()),
        Spatial::Pred(_, _) => Ok(()),
    }
}

/// The steps of a formula's equations and cells.
pub fn steps_of(alloc: Global, heap: &Heap) -> Result<Vec<ValueStep>, OutOfMemory>
    ensures { IfOk result (λ steps. steps.items ≡ steps_of heap.now) }
{
    let mut steps = Vec::new(alloc);
    for atom in heap.pure() {
        push_pure_steps(&mut steps, atom)?;
    }
    for atom in heap.spatial() {
        push_spatial_steps(&mut steps, atom)?;
    }
    Ok(steps)
}

/// Takes a step that leads from a known term to one that isn't.
fn take_step(known: &mut Vec<Term>, from: Term, to: Term) -> Result<(), OutOfMemory>
    ensures { OnOk result (Learns known.old.items known.new.items from to) }
{
    if is_known(known, from) && !is_known(known, to) {
        known.push(to)?;
    }
    Ok(())
}

fn follow_step(known: &mut Vec<Term>, step: &ValueStep) -> Result<(), OutOfMemory>
    ensures { OnOk result (Learns known.old.items known.new.items (source step.now) (target step.now)) }
{
    match step {
        ValueStep::Same(t, u) => take_step(known, *t, *u),
        ValueStep::Field(t, _, u) => take_step(known, *t, *u),
    }
}

/// Takes each step once.
fn learn_round(known: &mut Vec<Term>, steps: &[ValueStep]) -> Result<(), OutOfMemory>
    requires { AreLearned steps.now known.old.items }
    ensures sound { OnOk result (AreLearned steps.now known.new.items) }
    ensures longer { OnOk result (vec_len known.old ≤ vec_len known.new) }
    ensures closed { OnOk result (vec_len known.new ≡ vec_len known.old → AllTaken known.new.items steps.now) }
{
    for step in steps {
        follow_step(known, step)?;
    }
    Ok(())
}

/// The existential terms that steps lead to.
pub fn known_terms(alloc: Global, steps: &[ValueStep]) -> Result<Vec<Term>, OutOfMemory>
    ensures sound { IfOk result (λ known. AreLearned steps.now known.items) }
    ensures closed { IfOk result (λ known. AllTaken known.items steps.now) }
{
    let mut known = Vec::new(alloc);
    for _round in 0..usize::MAX {
        let before = known.len();
        learn_round(&mut known, steps)?;
        if known.len() == before {
            return Ok(known);
        }
    }
    let _count = known.len();
    unreachable!()
}

fn are_known(known: &[Term], terms: &[Term]) -> bool
    ensures { IsTrue result ↔ Each (IsKnownIn known.now) terms.now }
{
    for term in terms {
        if !is_known(known, *term) {
            return false;
        }
    }
    true
}

fn is_pure_known(known: &[Term], atom: &Pure) -> bool
    ensures { IsTrue result ↔ InPure (IsKnownIn known.now) atom.now }
{
    match atom {
        Pure::Eq(t, u) => is_known(known, *t) && is_known(known, *u),
        Pure::Neq(t, u) => is_known(known, *t) && is_known(known, *u),
    }
}

fn is_spatial_known(known: &[Term], atom: &Spatial) -> bool
    ensures { IsTrue result ↔ InSpatial (IsKnownIn known.now) atom.now }
{
    match atom {
        Spatial::Cell(t, ts) => is_known(known, *t) && are_known(known, ts.as_slice()),
        Spatial::Pred(_, ts) => are_known(known, ts.as_slice()),
    }
}

/// Whether each term of the formula is `nil`, a universal or one of these.
pub fn is_heap_known(known: &[Term], heap: &Heap) -> bool
    ensures { IsTrue result ↔ InHeap (IsKnownIn known.now) heap.now }
{
    for atom in heap.pure() {
        if !is_pure_known(known, atom) {
            return false;
        }
    }
    for atom in heap.spatial() {
        if !is_spatial_known(known, atom) {
            return false;
        }
    }
    true
}

/// Whether each existential of the formula has at most one value in a given stack and heap.
pub fn is_constructive(alloc: Global, heap: &Heap) -> Result<bool, OutOfMemory>
    ensures { IfOk result (λ yes. IsTrue yes ↔ IsConstructive heap.now) }
{
    let steps = steps_of(alloc, heap)?;
    let known = known_terms(alloc, &steps)?;
    Ok(is_heap_known(&known, heap))
}
