//! Reading heaps.

ghost use Rattle.std.specs.Prelude.{map};
ghost use Rattle.cyc_grammar.specs.Giving.{Gives};
ghost use Rattle.heap_syntax.specs.Words.{marked};
ghost use Rattle.heap_syntax.specs.DefinitionGrammar.{terms, heap, kept_heap, heaps, kept_heaps};
ghost use Rattle.heap_syntax.specs.DefinitionTrees.{heap_of};

use crate::definitions::form::NumberedForm;
use crate::definitions::tree::HeapTree;
use crate::{Keep, Mark};
use cyc_grammar::{Cursor, Refusal};
use std::alloc::Global;

/// A heap, of whose lists so much is kept, without existential variables where `universal` says so.
pub fn kept_heap<'a>(
    alloc: Global,
    universal: bool,
    keep: Keep,
    cursor: &mut Cursor<'_, 'a>,
) -> Result<HeapTree<'a>, Refusal>
    ensures { Gives (λ x. (heap_of x, cursor.new)) result ((kept_heap keep (terms universal)).read cursor.old) }
{
    crate::kept_heap(alloc, &NumberedForm { universal }, keep, cursor)
}

/// One heap or more, with a word between neighbours and one after the last; so much is kept of them and of their lists.
pub fn kept_heaps<'a>(
    alloc: Global,
    keep: Keep,
    between: &Mark<'_>,
    behind: &Mark<'_>,
    cursor: &mut Cursor<'_, 'a>,
) -> Result<Vec<HeapTree<'a>>, Refusal>
    ensures { Gives (λ x. (map heap_of x.items, cursor.new)) result
        ((kept_heaps keep (marked between.now) (marked behind.now)).read cursor.old) }
{
    crate::kept_heaps(
        alloc,
        &NumberedForm { universal: false },
        keep,
        between,
        behind,
        cursor,
    )
}

/// A heap, without existential variables where `universal` says so.
pub fn heap<'a>(
    alloc: Global,
    universal: bool,
    cursor: &mut Cursor<'_, 'a>,
) -> Result<HeapTree<'a>, Refusal>
    ensures { Gives (λ x. (heap_of x, cursor.new)) result ((heap (terms universal)).read cursor.old) }
{
    crate::heap(alloc, &NumberedForm { universal }, cursor)
}

/// One heap or more, with a word between neighbours and one after the last.
pub fn heaps<'a>(
    alloc: Global,
    between: &Mark<'_>,
    behind: &Mark<'_>,
    cursor: &mut Cursor<'_, 'a>,
) -> Result<Vec<HeapTree<'a>>, Refusal>
    ensures { Gives (λ x. (map heap_of x.items, cursor.new)) result
        ((heaps (marked between.now) (marked behind.now)).read cursor.old) }
{
    crate::heaps(
        alloc,
        &NumberedForm { universal: false },
        between,
        behind,
        cursor,
    )
}
