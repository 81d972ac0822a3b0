//! Writing heaps over terms of any form.

ghost use Rattle.std.specs.Prelude.{◌≡◌, map, OnOk};
ghost use Rattle.cyc_lex.specs.Writing.{write_all};
ghost use Rattle.cyc_grammar.specs.Syntax.{after, words_many, fits_many};
ghost use Rattle.heap_syntax.specs.Words.{star, marked};
ghost use Rattle.heap_syntax.specs.Grammar.{spatial, spatials, heap, heaps};
ghost use Rattle.heap_syntax.specs.Trees.{spatial_of, heap_of};

use crate::writing::atoms::{write_pures, write_spatial};
use crate::{HeapTree, Mark, SpatialTree, WrittenForm};
use cyc_basics::memory::OutOfMemory;
use cyc_lex::WordWriter;

fn write_more_spatials<'a, F: WrittenForm<'a>>(
    form: &F,
    trees: &[SpatialTree<'a, F::Term>],
    writer: &mut WordWriter,
) -> Result<(), OutOfMemory>
    requires { fits_many (after star (spatial (F.terms form.now))) (map (spatial_of F.seen) trees.now) }
    ensures { OnOk result
        (writer.new ≡ write_all writer.old
        (words_many (after star (spatial (F.terms form.now))) (map (spatial_of F.seen) trees.now))) }
{
    for tree in trees {
        writer.symbol("*")?;
        write_spatial(form, tree, writer)?;
    }
    Ok(())
}

#[tactic(auto, unfolding(crate::specs::Grammar::spatials, crate::specs::Grammar::spatials1, cyc_lex::specs::Writing::write_all))]
fn write_spatials<'a, F: WrittenForm<'a>>(
    form: &F,
    trees: &[SpatialTree<'a, F::Term>],
    writer: &mut WordWriter,
) -> Result<(), OutOfMemory>
    requires { (spatials (F.terms form.now) (spatial (F.terms form.now))).fits (map (spatial_of F.seen) trees.now) }
    ensures { OnOk result
        (writer.new ≡ write_all writer.old
        ((spatials (F.terms form.now) (spatial (F.terms form.now))).words (map (spatial_of F.seen) trees.now))) }
{
    match trees {
        [] => writer.name("emp"),
        [first, others @ ..] => {
            write_spatial(form, first, writer)?;
            write_more_spatials(form, others, writer)
        }
    }
}

/// Writes a heap.
#[tactic(auto, using(cyc_lex::proofs::WritingLaws::write_all_on), unfolding(crate::specs::Grammar::heap, cyc_lex::specs::Writing::write_all))]
pub fn write_heap<'a, F: WrittenForm<'a>>(
    form: &F,
    tree: &HeapTree<'a, F::Term>,
    writer: &mut WordWriter,
) -> Result<(), OutOfMemory>
    requires { (heap (F.terms form.now) (spatial (F.terms form.now))).fits (heap_of F.seen tree.now) }
    ensures { OnOk result
        (writer.new ≡ write_all writer.old
        ((heap (F.terms form.now) (spatial (F.terms form.now))).words (heap_of F.seen tree.now))) }
{
    write_pures(form, &tree.pure, writer)?;
    write_spatials(form, &tree.spatial, writer)
}

fn write_more_heaps<'a, F: WrittenForm<'a>>(
    form: &F,
    between: &Mark<'_>,
    trees: &[HeapTree<'a, F::Term>],
    writer: &mut WordWriter,
) -> Result<(), OutOfMemory>
    requires { fits_many (after (marked between.now) (heap (F.terms form.now) (spatial (F.terms form.now))))
        (map (heap_of F.seen) trees.now) }
    ensures { OnOk result
        (writer.new ≡ write_all writer.old
        (words_many (after (marked between.now) (heap (F.terms form.now) (spatial (F.terms form.now))))
        (map (heap_of F.seen) trees.now))) }
{
    for tree in trees {
        between.write(writer)?;
        write_heap(form, tree, writer)?;
    }
    Ok(())
}

/// Writes one heap or more, with a word between neighbours and one after the last.
#[tactic(auto, using(cyc_lex::proofs::WritingLaws::write_all_on), unfolding(crate::specs::Grammar::listed, cyc_lex::specs::Writing::write_all))]
pub fn write_heaps<'a, F: WrittenForm<'a>>(
    form: &F,
    between: &Mark<'_>,
    behind: &Mark<'_>,
    trees: &[HeapTree<'a, F::Term>],
    writer: &mut WordWriter,
) -> Result<(), OutOfMemory>
    requires { (heaps (marked between.now) (marked behind.now)
        (heap (F.terms form.now) (spatial (F.terms form.now)))).fits (map (heap_of F.seen) trees.now) }
    ensures { OnOk result
        (writer.new ≡ write_all writer.old
        ((heaps (marked between.now) (marked behind.now)
        (heap (F.terms form.now) (spatial (F.terms form.now)))).words (map (heap_of F.seen) trees.now))) }
{
    match trees {
        [] => unreachable!(),
        [first, others @ ..] => {
            write_heap(form, first, writer)?;
            write_more_heaps(form, between, others, writer)?;
            behind.write(writer)
        }
    }
}
