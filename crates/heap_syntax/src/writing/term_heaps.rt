//! Writing heaps with numbered variables.

ghost use Rattle.std.specs.Prelude.{◌≡◌, map, OnOk};
ghost use Rattle.cyc_lex.specs.Writing.{write_all};
ghost use Rattle.heap_syntax.specs.Words.{marked};
ghost use Rattle.heap_syntax.specs.DefinitionGrammar.{terms, heap, heaps};
ghost use Rattle.heap_syntax.specs.DefinitionTrees.{heap_of};

use crate::Mark;
use crate::definitions::{HeapTree, NumberedForm};
use crate::writing::heaps;
use cyc_basics::memory::OutOfMemory;
use cyc_lex::WordWriter;

/// Writes a heap that has a text, without existential variables where `universal` says so.
pub fn write_heap(
    universal: bool,
    tree: &HeapTree<'_>,
    writer: &mut WordWriter,
) -> Result<(), OutOfMemory>
    requires { (heap (terms universal)).fits (heap_of tree.now) }
    ensures { OnOk result (writer.new ≡ write_all writer.old ((heap (terms universal)).words (heap_of tree.now))) }
{
    heaps::write_heap(&NumberedForm { universal }, tree, writer)
}

/// Writes one heap or more, with a word between neighbours and one after the last.
pub fn write_heaps(
    between: &Mark<'_>,
    behind: &Mark<'_>,
    trees: &[HeapTree<'_>],
    writer: &mut WordWriter,
) -> Result<(), OutOfMemory>
    requires { (heaps (marked between.now) (marked behind.now)).fits (map heap_of trees.now) }
    ensures { OnOk result
        (writer.new ≡ write_all writer.old
        ((heaps (marked between.now) (marked behind.now)).words (map heap_of trees.now))) }
{
    heaps::write_heaps(
        &NumberedForm { universal: false },
        between,
        behind,
        trees,
        writer,
    )
}
