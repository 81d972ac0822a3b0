//! A search in depth for a way from one state of a product to another.

ghost use Rattle.std.specs.Prelude.{◌≡◌, ◌<◌, ◌≤◌, true, false, suc, length, IfOk, OnOk, MatchOption, slice_get, Some};
ghost use Rattle.buchi_inclusion.specs.Table.{states_of};
ghost use Rattle.buchi_inclusion.specs.Decision.{IsClassOf};
ghost use Rattle.buchi_inclusion.specs.Work.{places_left, unmarked};
ghost use Rattle.buchi_inclusion.specs.ClassWays.{IsClassItem, AreClassItems, HasClassWay, AreClassLed};

use crate::decision::Class;
use crate::product::Transition;
use buchi_core::earlier;
use cyc_basics::memory::OutOfMemory;
use std::alloc::Global;

/// Whether the place is not marked, which it is then, if there is such a place.
fn is_new(marks: &mut Vec<bool>, place: usize) -> bool
    ensures new { result ≡ true → unmarked marks.old.items ≡ suc (unmarked marks.new.items) }
    ensures known { result ≡ false → marks.new ≡ marks.old }
{
    match marks.get(place) {
        Some(false) => {
            marks[place] = true;
            true
        }
        _ => false,
    }
}

/// A state's row.
fn row_at(rows: &[Vec<Transition>], place: usize) -> Option<&Vec<Transition>>
    ensures { MatchOption result (length rows.now ≤ place) (λ row. slice_get rows.now place ≡ Some row.now) }
{
    rows.get(place)
}

/// Puts the target of an edge of the state at a place on the stack, if the move is one of the class and the target is
/// not marked.
fn push_target(
    class: &Class<'_>,
    start: usize,
    place: usize,
    edge: usize,
    item: Transition,
    marks: &mut Vec<bool>,
    stack: &mut Vec<usize>,
) -> Result<(), OutOfMemory>
    requires class { IsClassOf class.now }
    requires item { IsClassItem class.now place edge item }
    requires way { HasClassWay class.now start place }
    requires stack { AreClassLed class.now start stack.old.items }
    ensures led { OnOk result (AreClassLed class.now start stack.new.items) }
    ensures left { OnOk result (places_left marks.new.items stack.new.items ≤ places_left marks.old.items stack.old.items) }
{
    if earlier(item.event, class.least) {
        return Ok(());
    }
    if !is_new(marks, item.target as usize) {
        return Ok(());
    }
    stack.push(item.target as usize)?;
    Ok(())
}

/// Puts the targets of a state's moves of the class on the stack, but those that are marked.
fn push_targets(
    class: &Class<'_>,
    start: usize,
    place: usize,
    row: &[Transition],
    marks: &mut Vec<bool>,
    stack: &mut Vec<usize>,
) -> Result<(), OutOfMemory>
    requires class { IsClassOf class.now }
    requires row { AreClassItems class.now place row.now }
    requires way { HasClassWay class.now start place }
    requires stack { AreClassLed class.now start stack.old.items }
    ensures led { OnOk result (AreClassLed class.now start stack.new.items) }
    ensures left { OnOk result (places_left marks.new.items stack.new.items ≤ places_left marks.old.items stack.old.items) }
{
    for (edge, item) in row.iter().enumerate() {
        push_target(class, start, place, edge, *item, marks, stack)?;
    }
    Ok(())
}

/// Goes on from the state at a place.
fn push_row(
    class: &Class<'_>,
    start: usize,
    place: usize,
    marks: &mut Vec<bool>,
    stack: &mut Vec<usize>,
) -> Result<(), OutOfMemory>
    requires class { IsClassOf class.now }
    requires way { HasClassWay class.now start place }
    requires stack { AreClassLed class.now start stack.old.items }
    ensures led { OnOk result (AreClassLed class.now start stack.new.items) }
    ensures left { OnOk result (places_left marks.new.items stack.new.items ≤ places_left marks.old.items stack.old.items) }
{
    match row_at(&class.table.rows, place) {
        None => Ok(()),
        Some(row) => push_targets(class, start, place, row, marks, stack),
    }
}

/// Whether the search comes from the state at a place to that at another. Where it does not, no clause says that there
/// is no way.
pub fn is_reached(
    alloc: Global,
    class: &Class<'_>,
    start: usize,
    to: usize,
) -> Result<bool, OutOfMemory>
    requires class { IsClassOf class.now }
    requires start { start < length (states_of class.now.table.now.states) }
    ensures { IfOk result (λ b. b ≡ true → HasClassWay class.now start to) }
{
    let count = class.table.rows.len();
    let mut marks = vec![in alloc; false; count]?;
    let mut stack = Vec::with_capacity(alloc, count)?;
    stack.push(start)?;
    while let Some(place) = stack.pop() {
        if place == to {
            return Ok(true);
        }
        push_row(class, start, place, &mut marks, &mut stack)?;
    }
    Ok(false)
}
