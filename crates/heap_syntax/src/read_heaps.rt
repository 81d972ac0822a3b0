//! Reading heaps from the front of a list of tokens.

ghost use Rattle.std.specs.Prelude.{map};
ghost use Rattle.cyc_grammar.specs.Giving.{Gives};
ghost use Rattle.heap_syntax.specs.Words.{star, marked};
ghost use Rattle.heap_syntax.specs.Grammar.{kept_spatials, heap, kept_heap, heaps, kept_heaps};
ghost use Rattle.heap_syntax.specs.Trees.{spatial_of, heap_of};
ghost use Rattle.heap_syntax.specs.Members.{GivesMembers};

use crate::form::AtomForm;
use crate::keep::Keep;
use crate::mark::Mark;
use crate::read_atoms::kept_pures;
use crate::tree::{HeapTree, SpatialTree};
use cyc_grammar::{Cursor, Refusal};
use std::alloc::Global;

/// Reads the spatial atoms after the first one.
fn more_spatials<'a, F: AtomForm<'a>>(
    alloc: Global,
    form: &F,
    keep: Keep,
    first: SpatialTree<'a, F::Term>,
    cursor: &mut Cursor<'_, 'a>,
) -> Result<Vec<SpatialTree<'a, F::Term>>, Refusal>
    ensures { GivesMembers keep (spatial_of F.seen) first.entry star (F.atoms form.now) cursor.old result cursor.new }
{
    let mut items: Vec<SpatialTree<'a, F::Term>> = Vec::new(alloc);
    items.push(first)?;
    for _ in 0..cursor.left() {
        if !cursor.is_symbol_next("*") {
            return Ok(items);
        }
        cursor.symbol("*")?;
        let item = form.read_atom(alloc, cursor)?;
        items = keep.with_member(items, item)?;
    }
    if cursor.is_symbol_next("*") {
        return Err(Refusal::Dead(cursor.left()));
    }
    Ok(items)
}

#[tactic(auto, unfolding(crate::specs::Grammar::kept_spatials))]
fn kept_spatials<'a, F: AtomForm<'a>>(
    alloc: Global,
    form: &F,
    keep: Keep,
    cursor: &mut Cursor<'_, 'a>,
) -> Result<Vec<SpatialTree<'a, F::Term>>, Refusal>
    ensures { Gives (λ x. (map (spatial_of F.seen) x.items, cursor.new)) result
        ((kept_spatials keep (F.terms form.now) (F.atoms form.now)).read cursor.old) }
{
    if cursor.is_keyword_next("emp") {
        cursor.keyword("emp")?;
        return Ok(Vec::new(alloc));
    }
    let first = form.read_atom(alloc, cursor)?;
    more_spatials(alloc, form, keep, first, cursor)
}

/// Reads a heap, of whose lists so much is kept.
#[tactic(auto, unfolding(crate::specs::Grammar::kept_heap))]
pub fn kept_heap<'a, F: AtomForm<'a>>(
    alloc: Global,
    form: &F,
    keep: Keep,
    cursor: &mut Cursor<'_, 'a>,
) -> Result<HeapTree<'a, F::Term>, Refusal>
    ensures { Gives (λ x. (heap_of F.seen x, cursor.new)) result
        ((kept_heap keep (F.terms form.now) (F.atoms form.now)).read cursor.old) }
{
    let pure = kept_pures(alloc, form, keep, cursor)?;
    let spatial = kept_spatials(alloc, form, keep, cursor)?;
    Ok(HeapTree { pure, spatial })
}

/// Reads a heap.
#[tactic(auto, unfolding(crate::specs::Grammar::heap, crate::specs::Grammar::kept_heap, crate::specs::Grammar::pures, crate::specs::Grammar::pures1, crate::specs::Grammar::kept_pures, crate::specs::Grammar::listed, crate::specs::Grammar::kept_listed, crate::specs::Grammar::spatials, crate::specs::Grammar::spatials1, crate::specs::Grammar::kept_spatials))]
pub fn heap<'a, F: AtomForm<'a>>(
    alloc: Global,
    form: &F,
    cursor: &mut Cursor<'_, 'a>,
) -> Result<HeapTree<'a, F::Term>, Refusal>
    ensures { Gives (λ x. (heap_of F.seen x, cursor.new)) result
        ((heap (F.terms form.now) (F.atoms form.now)).read cursor.old) }
{
    kept_heap(alloc, form, Keep::All, cursor)
}

/// Reads the heaps after the first one.
fn more_heaps<'a, F: AtomForm<'a>>(
    alloc: Global,
    form: &F,
    keep: Keep,
    between: &Mark<'_>,
    first: HeapTree<'a, F::Term>,
    cursor: &mut Cursor<'_, 'a>,
) -> Result<Vec<HeapTree<'a, F::Term>>, Refusal>
    ensures { GivesMembers keep (heap_of F.seen) first.entry (marked between.now)
        (kept_heap keep (F.terms form.now) (F.atoms form.now)) cursor.old result cursor.new }
{
    let mut items: Vec<HeapTree<'a, F::Term>> = Vec::new(alloc);
    items.push(first)?;
    for _ in 0..cursor.left() {
        if !between.is_next(cursor) {
            return Ok(items);
        }
        between.take(cursor)?;
        let item = kept_heap(alloc, form, keep, cursor)?;
        items = keep.with_member(items, item)?;
    }
    if between.is_next(cursor) {
        return Err(Refusal::Dead(cursor.left()));
    }
    Ok(items)
}

/// Reads one heap or more, with a word between neighbours and one after the last; so much is kept of them and of their
/// lists.
#[tactic(auto, unfolding(crate::specs::Grammar::kept_listed))]
pub fn kept_heaps<'a, F: AtomForm<'a>>(
    alloc: Global,
    form: &F,
    keep: Keep,
    between: &Mark<'_>,
    behind: &Mark<'_>,
    cursor: &mut Cursor<'_, 'a>,
) -> Result<Vec<HeapTree<'a, F::Term>>, Refusal>
    ensures { Gives (λ x. (map (heap_of F.seen) x.items, cursor.new)) result
        ((kept_heaps keep (marked between.now) (marked behind.now)
        (kept_heap keep (F.terms form.now) (F.atoms form.now))).read cursor.old) }
{
    let first = kept_heap(alloc, form, keep, cursor)?;
    let items = more_heaps(alloc, form, keep, between, first, cursor)?;
    behind.take(cursor)?;
    Ok(items)
}

/// Reads one heap or more, with a word between neighbours and one after the last.
#[tactic(auto, unfolding(crate::specs::Grammar::heap, crate::specs::Grammar::kept_heap, crate::specs::Grammar::pures, crate::specs::Grammar::pures1, crate::specs::Grammar::kept_pures, crate::specs::Grammar::listed, crate::specs::Grammar::kept_listed, crate::specs::Grammar::spatials, crate::specs::Grammar::spatials1, crate::specs::Grammar::kept_spatials))]
pub fn heaps<'a, F: AtomForm<'a>>(
    alloc: Global,
    form: &F,
    between: &Mark<'_>,
    behind: &Mark<'_>,
    cursor: &mut Cursor<'_, 'a>,
) -> Result<Vec<HeapTree<'a, F::Term>>, Refusal>
    ensures { Gives (λ x. (map (heap_of F.seen) x.items, cursor.new)) result
        ((heaps (marked between.now) (marked behind.now)
        (heap (F.terms form.now) (F.atoms form.now))).read cursor.old) }
{
    kept_heaps(alloc, form, Keep::All, between, behind, cursor)
}
