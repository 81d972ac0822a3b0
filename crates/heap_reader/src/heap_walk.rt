// A walk over heaps in the order of their tokens, up to the first flaw.
ghost use Rattle.std.specs.Prelude.{◌≡◌, ◌+◌, ◌<◌, ◌^◌, map};
ghost use Rattle.heap_reader.specs.Trees.{spatial_of, heap_of};
ghost use Rattle.heap_reader.specs.Spans.{total, spatial_span, spatials_span, heap_span};
ghost use Rattle.heap_reader.specs.Flaws.{listed_flaw, spatial_flaw, heap_flaw, heap_limit as limit_of, counted_flaw};
ghost use Rattle.heap_reader.specs.Flaws.{heaps_flaw, IsWalk};

use crate::atom_walk::{pure_part, spatial_atom};
use crate::flaw::{Flaw, over};
use crate::form::TermReader;
use crate::head::Heads;
use cyc_basics::limits::{Limits, MOST_DISJUNCTS};
use cyc_lex::What;
use heap_syntax::{HeapTree, SpatialTree};

fn spatial_atoms<F: TermReader>(
    heads: &Heads<'_>,
    form: &F,
    most: Limits,
    at: usize,
    trees: &[SpatialTree<'_, F::Term>],
) -> Result<usize, Flaw>
    requires { at + total (spatial_span F.span) (map spatial_of trees.now) < 2 ^ 64 }
    ensures { IsWalk result
        (listed_flaw (spatial_flaw (F.flaw form.now) F.span most heads.now) (spatial_span F.span) 0 at
        (map spatial_of trees.now)) (at + total (spatial_span F.span) (map spatial_of trees.now)) }
{
    let mut next = at;
    for (n, tree) in trees.iter().enumerate() {
        next = spatial_atom(heads, form, most, n, next, tree)?;
    }
    Ok(next)
}

/// The spatial atoms of a heap, or the word `emp`.
fn spatial_part<F: TermReader>(
    heads: &Heads<'_>,
    form: &F,
    most: Limits,
    at: usize,
    trees: &[SpatialTree<'_, F::Term>],
) -> Result<usize, Flaw>
    requires { at + spatials_span F.span (map spatial_of trees.now) < 2 ^ 64 }
    ensures { IsWalk result
        (listed_flaw (spatial_flaw (F.flaw form.now) F.span most heads.now) (spatial_span F.span) 0 at
        (map spatial_of trees.now)) (at + spatials_span F.span (map spatial_of trees.now)) }
{
    match trees {
        [] => Ok(at + 2),
        _ => spatial_atoms(heads, form, most, at, trees),
    }
}

/// Goes over a heap that begins at a token, and gives the token after it and the one that follows it. Its predicates
/// are compared with the heads; `most` says how many atoms a heap may have, and arguments an atom.
pub fn walk_heap<F: TermReader>(
    heads: &Heads<'_>,
    form: &F,
    most: Limits,
    at: usize,
    tree: &HeapTree<'_, F::Term>,
) -> Result<usize, Flaw>
    requires { at + heap_span F.span (heap_of tree.now) < 2 ^ 64 }
    ensures { IsWalk result (heap_flaw (F.flaw form.now) F.span most heads.now at (heap_of tree.now))
        (at + heap_span F.span (heap_of tree.now)) }
{
    let spatial = pure_part(form, most, at, &tree.pure)?;
    spatial_part(heads, form, most, spatial, &tree.spatial)
}

/// How many heaps may stand together; `what` says what they are.
fn heap_limit(most: Limits, what: What) -> usize
    ensures { result ≡ limit_of most what }
{
    match what {
        What::Cases => most.cases as usize,
        _ => MOST_DISJUNCTS,
    }
}

fn counted_heap<F: TermReader>(
    heads: &Heads<'_>,
    form: &F,
    most: Limits,
    what: What,
    n: usize,
    at: usize,
    tree: &HeapTree<'_, F::Term>,
) -> Result<usize, Flaw>
    requires { at + heap_span F.span (heap_of tree.now) < 2 ^ 64 }
    ensures { IsWalk result (counted_flaw (F.flaw form.now) F.span most heads.now what n at (heap_of tree.now))
        (at + heap_span F.span (heap_of tree.now)) }
{
    if n >= heap_limit(most, what) {
        return Err(over(what, at));
    }
    walk_heap(heads, form, most, at, tree)
}

/// Goes over heaps; `what` says what they are, and so how many may stand together.
pub fn walk_heaps<F: TermReader>(
    heads: &Heads<'_>,
    form: &F,
    most: Limits,
    what: What,
    at: usize,
    trees: &[HeapTree<'_, F::Term>],
) -> Result<usize, Flaw>
    requires { at + total (heap_span F.span) (map heap_of trees.now) < 2 ^ 64 }
    ensures { IsWalk result (heaps_flaw (F.flaw form.now) F.span most heads.now what at (map heap_of trees.now))
        (at + total (heap_span F.span) (map heap_of trees.now)) }
{
    let mut next = at;
    for (n, tree) in trees.iter().enumerate() {
        next = counted_heap(heads, form, most, what, n, next, tree)?;
    }
    Ok(next)
}
