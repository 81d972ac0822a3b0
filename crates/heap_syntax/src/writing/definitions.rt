//! Writing the definitions of predicates.

ghost use Rattle.std.specs.Prelude.{◌≡◌, map, OnOk};
ghost use Rattle.cyc_lex.specs.Writing.{write_all};
ghost use Rattle.heap_syntax.specs.DefinitionGrammar.{cases, definition, definitions};
ghost use Rattle.heap_syntax.specs.DefinitionTrees.{heap_of, definition_of};

use crate::Mark;
use crate::definitions::{DefinitionTree, HeapTree};
use crate::writing::term_heaps::write_heaps;
use cyc_basics::memory::OutOfMemory;
use cyc_lex::WordWriter;

#[tactic(auto, unfolding(crate::specs::DefinitionGrammar::cases))]
fn write_cases(trees: &[HeapTree<'_>], writer: &mut WordWriter) -> Result<(), OutOfMemory>
    requires { cases.fits (map heap_of trees.now) }
    ensures { OnOk result (writer.new ≡ write_all writer.old (cases.words (map heap_of trees.now))) }
{
    write_heaps(&Mark::Symbol("|"), &Mark::Symbol("}"), trees, writer)
}

#[tactic(auto, using(cyc_lex::proofs::WritingLaws::write_all_on), unfolding(crate::specs::DefinitionGrammar::definition, cyc_lex::specs::Writing::write_all))]
fn write_definition(tree: &DefinitionTree<'_>, writer: &mut WordWriter) -> Result<(), OutOfMemory>
    requires { definition.fits (definition_of tree.now) }
    ensures { OnOk result (writer.new ≡ write_all writer.old (definition.words (definition_of tree.now))) }
{
    writer.name("pred")?;
    writer.name(tree.name)?;
    writer.symbol("(")?;
    writer.number(tree.arity)?;
    writer.symbol(")")?;
    writer.symbol("{")?;
    write_cases(&tree.cases, writer)?;
    writer.symbol(";")
}

/// Writes definitions that have a text.
#[tactic(auto, unfolding(crate::specs::DefinitionGrammar::definitions))]
pub fn write_definitions(
    trees: &[DefinitionTree<'_>],
    writer: &mut WordWriter,
) -> Result<(), OutOfMemory>
    requires { definitions.fits (map definition_of trees.now) }
    ensures { OnOk result (writer.new ≡ write_all writer.old (definitions.words (map definition_of trees.now))) }
{
    for tree in trees {
        write_definition(tree, writer)?;
    }
    Ok(())
}
