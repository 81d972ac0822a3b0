// Whether a stack and a heap satisfy a formula.
ghost use Rattle.std.specs.Prelude.{◌≡◌, ℕ, List, ◌↔◌, IsTrue, IfOk, nat_eq, ◌&&◌, ◌+◌, slice_index};
ghost use Rattle.std.specs.Option.{is_some};
ghost use Rattle.heap_formula.specs.Cells.{IsHeap, cell_at};
ghost use Rattle.heap_formula.specs.Meaning.{Satisfies};
ghost use Rattle.model_check.specs.Constructive.{IsConstructive, AreConstructive, IsOnly};
ghost use Rattle.cyc_basics.specs.Words.{IsMember};
ghost use Rattle.model_check.specs.ForcedLocals.{stack_of};
ghost use Rattle.model_check.specs.WideMasks.{number};
ghost use Rattle.model_check.specs.Parts.{AreMasksOf, SomePartSatisfies};
ghost use Rattle.model_check.specs.MaskParts.{place, from_bits, stands, mask_of, Covers};
ghost use Rattle.model_check.specs.Ground.{Unions, IsSolved};
ghost use Rattle.model_check.specs.declared.ground.GroundRule.{GroundRule};
ghost use Rattle.model_check.specs.Grounding.{Extends, Grounds};
ghost use Rattle.model_check.specs.Tables.{HasMask};

use crate::ground::Piece;
use crate::grounding::{ground_questions, pieces_of, place_of};
use crate::locals::{Local, locals_of};
use crate::mask::Mask;
use crate::questions::Question;
use crate::solving::solve;
use crate::unions::{Row, has_mask, unions};
use cyc_basics::memory::OutOfMemory;
use goto_lang::{Cells, Stack};
use heap_formula::Heap;
use indexmap::IndexSet;
use pred_defs::Defs;
use std::alloc::Global;

/// The addresses, each with its place in this order.
fn places_of(alloc: Global, addresses: &[u64]) -> Result<IndexSet<u64>, OutOfMemory>
    ensures { IfOk result (λ p. (a : ℕ) → IsMember a addresses.now → IsMember a p.keys) }
{
    let mut places = IndexSet::new(alloc);
    for address in addresses {
        places.insert(*address)?;
    }
    Ok(places)
}

/// The places of the heap's cells: the addresses, each with its number in ascending order.
pub fn heap_places(alloc: Global, cells: &Cells) -> Result<IndexSet<u64>, OutOfMemory>
    ensures covers { IfOk result (λ p. Covers p.keys cells.now) }
    ensures heap { IsHeap cells.now }
{
    let addresses = cells.addresses(alloc)?;
    places_of(alloc, &addresses)
}

fn stands_at(places: &IndexSet<u64>, cells: &Cells, i: usize, address: u64) -> bool
    ensures { result ≡ (nat_eq (place places.now.keys address) i && is_some (cell_at cells.now address)) }
{
    place_of(places, address) == i && cells.get(address).is_some()
}

/// The mask with a place, if a cell of the heap stands there.
fn with_place(
    alloc: Global,
    places: &IndexSet<u64>,
    cells: &Cells,
    mask: Mask,
    i: usize,
    address: u64,
) -> Result<Mask, OutOfMemory>
    requires address { address ≡ slice_index places.now.keys i }
    requires before { number mask ≡ from_bits (stands places.now.keys cells.now) i }
    ensures { IfOk result (λ m. number m ≡ from_bits (stands places.now.keys cells.now) (i + 1)) }
{
    if !stands_at(places, cells, i, address) {
        return Ok(mask);
    }
    let one = Mask::one(alloc, i)?;
    mask.union(alloc, &one)
}

/// The mask of the whole heap.
pub fn whole_mask(alloc: Global, places: &IndexSet<u64>, cells: &Cells) -> Result<Mask, OutOfMemory>
    ensures { IfOk result (λ m. number m ≡ mask_of places.now.keys cells.now) }
{
    let mut mask = Mask::empty(alloc);
    for (i, address) in places.as_slice().iter().enumerate() {
        mask = with_place(alloc, places, cells, mask, i, *address)?;
    }
    Ok(mask)
}

/// The masks of each question, and of those that they ask in turn.
fn table_of(
    alloc: Global,
    defs: &Defs,
    cells: &Cells,
    places: &IndexSet<u64>,
    questions: &mut IndexSet<Question>,
) -> Result<Vec<Row>, OutOfMemory>
    requires constructive { AreConstructive defs.now.list }
    requires covers { Covers places.now.keys cells.now }
    requires heap { IsHeap cells.now }
    ensures { IfOk result (λ table. (rules : List GroundRule) × Extends questions.old.keys questions.new.keys
        × Grounds defs.now.list cells.now places.now.keys questions.new.keys rules
        × IsSolved rules (HasMask table.items)) }
{
    let mut rules = Vec::new(alloc);
    ground_questions(alloc, defs, cells, places, questions, &mut rules)?;
    solve(alloc, &rules, questions.len())
}

/// The masks of the parts of the heap that satisfy the formula, where these values of its locals are the only ones that
/// fit: each consists of a part for each spatial atom.
fn masks_of(
    alloc: Global,
    defs: &Defs,
    stack: &[u64],
    cells: &Cells,
    places: &IndexSet<u64>,
    locals: &[Local],
    ask: &Heap,
) -> Result<Row, OutOfMemory>
    requires constructive { AreConstructive defs.now.list }
    requires covers { Covers places.now.keys cells.now }
    requires heap { IsHeap cells.now }
    requires only { IsOnly cells.now stack.now (stack_of locals.now) ask.now }
    ensures { IfOk result (AreMasksOf defs.now.list places.now.keys stack.now cells.now ask.now) }
{
    let mut questions = IndexSet::new(alloc);
    let pieces = pieces_of(alloc, places, &mut questions, stack, locals, ask.spatial())?;
    let solved = table_of(alloc, defs, cells, places, &mut questions);
    drop(questions);
    let table = solved?;
    unions(alloc, &table, pieces.as_slice())
}

/// Whether a mask is a disjoint union of one mask of the table for each piece.
pub fn is_given(
    alloc: Global,
    table: &[Row],
    pieces: &[Piece],
    mask: &Mask,
) -> Result<bool, OutOfMemory>
    ensures { IfOk result (λ b. IsTrue b ↔ Unions (HasMask table.now) pieces.now (number mask.now)) }
{
    let masks = unions(alloc, table, pieces)?;
    let given = has_mask(masks.as_slice(), mask);
    drop(masks);
    Ok(given)
}

/// The answer where the heap's cells have these places.
fn satisfied_at(
    alloc: Global,
    defs: &Defs,
    stack: &[u64],
    cells: &Cells,
    places: &IndexSet<u64>,
    locals: &[Local],
    ask: &Heap,
) -> Result<bool, OutOfMemory>
    requires constructive { AreConstructive defs.now.list }
    requires covers { Covers places.now.keys cells.now }
    requires heap { IsHeap cells.now }
    requires only { IsOnly cells.now stack.now (stack_of locals.now) ask.now }
    ensures { IfOk result (λ b. IsTrue b ↔ Satisfies defs.now.list stack.now cells.now ask.now) }
{
    let whole = whole_mask(alloc, places, cells)?;
    let masks = masks_of(alloc, defs, stack, cells, places, locals, ask)?;
    let holds = has_mask(masks.as_slice(), &whole);
    drop(masks);
    Ok(holds)
}

/// The answer where these values of the formula's locals are the only ones that fit.
fn satisfied_with(
    alloc: Global,
    defs: &Defs,
    stack: &[u64],
    cells: &Cells,
    locals: &[Local],
    ask: &Heap,
) -> Result<bool, OutOfMemory>
    requires constructive { AreConstructive defs.now.list }
    requires only { IsOnly cells.now stack.now (stack_of locals.now) ask.now }
    ensures { IfOk result (λ b. IsTrue b ↔ Satisfies defs.now.list stack.now cells.now ask.now) }
{
    let places = heap_places(alloc, cells)?;
    let holds = satisfied_at(alloc, defs, stack, cells, &places, locals, ask);
    drop(places);
    holds
}

/// Whether the stack and the heap satisfy the formula, under the least meaning of the definitions. `constructive` names
/// no place of the definitions and the formula.
pub fn satisfied(
    alloc: Global,
    defs: &Defs,
    stack: &Stack,
    heap: &Cells,
    ask: &Heap,
) -> Result<bool, OutOfMemory>
    requires definitions { AreConstructive defs.now.list }
    requires formula { IsConstructive ask.now }
    ensures exact { IfOk result (λ b. IsTrue b ↔ Satisfies defs.now.list stack.now heap.now ask.now) }
{
    match locals_of(alloc, stack.as_slice(), heap, ask)? {
        None => Ok(false),
        Some(locals) => satisfied_with(alloc, defs, stack.as_slice(), heap, &locals, ask),
    }
}

/// Whether there is such a part where these values of the formula's locals are the only ones that fit the whole heap.
fn satisfied_by_part_with(
    alloc: Global,
    defs: &Defs,
    stack: &[u64],
    cells: &Cells,
    locals: &[Local],
    ask: &Heap,
) -> Result<bool, OutOfMemory>
    requires constructive { AreConstructive defs.now.list }
    requires only { IsOnly cells.now stack.now (stack_of locals.now) ask.now }
    ensures { IfOk result (λ b. IsTrue b ↔ SomePartSatisfies defs.now.list stack.now cells.now ask.now) }
{
    let places = heap_places(alloc, cells)?;
    let masks = masks_of(alloc, defs, stack, cells, &places, locals, ask);
    drop(places);
    let masks = masks?;
    let is_none = masks.as_slice().is_empty();
    drop(masks);
    Ok(!is_none)
}

/// Whether the stack and some part of the heap satisfy the formula, under the least meaning of the definitions: then the
/// heap satisfies it beside something else. `constructive` names no place of the definitions and the formula.
pub fn satisfied_by_part(
    alloc: Global,
    defs: &Defs,
    stack: &Stack,
    heap: &Cells,
    ask: &Heap,
) -> Result<bool, OutOfMemory>
    requires definitions { AreConstructive defs.now.list }
    requires formula { IsConstructive ask.now }
    ensures exact { IfOk result (λ b. IsTrue b ↔ SomePartSatisfies defs.now.list stack.now heap.now ask.now) }
{
    match locals_of(alloc, stack.as_slice(), heap, ask)? {
        None => Ok(false),
        Some(locals) => {
            satisfied_by_part_with(alloc, defs, stack.as_slice(), heap, &locals, ask)
        }
    }
}
