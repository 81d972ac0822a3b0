//! Writing the ends of a program.

ghost use Rattle.std.specs.Prelude.{◌≡◌, true, map, OnOk};
ghost use Rattle.cyc_lex.specs.Writing.{write_all};
ghost use Rattle.cyc_grammar.specs.Syntax.{words_many, fits_many};
ghost use Rattle.heap_syntax.specs.Grammar.{spatial};
ghost use Rattle.heap_syntax.specs.EndGrammar.{end, ends};
ghost use Rattle.heap_syntax.specs.EndTrees.{end_of};

use crate::ends::EndTree;
use crate::writing::heaps::write_heaps;
use crate::{Mark, Version, WrittenForm};
use cyc_basics::memory::OutOfMemory;
use cyc_lex::WordWriter;

#[tactic(auto, using(cyc_lex::proofs::WritingLaws::write_all_on), unfolding(crate::specs::EndGrammar::end, cyc_lex::specs::Writing::write_all))]
fn write_end<'a, F: WrittenForm<'a>>(
    form: &F,
    tree: &EndTree<'a, F::Term>,
    writer: &mut WordWriter,
) -> Result<(), OutOfMemory>
    requires { (end (F.terms form.now) (spatial (F.terms form.now))).fits (end_of F.seen tree.now) }
    ensures { OnOk result
        (writer.new ≡ write_all writer.old
        ((end (F.terms form.now) (spatial (F.terms form.now))).words (end_of F.seen tree.now))) }
{
    writer.name("ends")?;
    writer.number(tree.number)?;
    writer.symbol(":")?;
    write_heaps(
        form,
        &Mark::Keyword("or"),
        &Mark::Symbol(";"),
        &tree.disjuncts,
        writer,
    )
}

fn write_all_ends<'a, F: WrittenForm<'a>>(
    form: &F,
    trees: &[EndTree<'a, F::Term>],
    writer: &mut WordWriter,
) -> Result<(), OutOfMemory>
    requires { fits_many (end (F.terms form.now) (spatial (F.terms form.now))) (map (end_of F.seen) trees.now) }
    ensures { OnOk result
        (writer.new ≡ write_all writer.old
        (words_many (end (F.terms form.now) (spatial (F.terms form.now))) (map (end_of F.seen) trees.now))) }
{
    for tree in trees {
        write_end(form, tree, writer)?;
    }
    Ok(())
}

/// Writes the ends of a program of a version.
#[tactic(auto, using(crate::proofs::EndTexts::ends_fit, crate::proofs::EndTexts::ends_words))]
pub fn write_ends<'a, F: WrittenForm<'a>>(
    form: &F,
    version: Version,
    trees: &[EndTree<'a, F::Term>],
    writer: &mut WordWriter,
) -> Result<(), OutOfMemory>
    requires { (ends version (F.terms form.now) (spatial (F.terms form.now))).fits (map (end_of F.seen) trees.now) }
    ensures { OnOk result
        (writer.new ≡ write_all writer.old
        ((ends version (F.terms form.now) (spatial (F.terms form.now))).words (map (end_of F.seen) trees.now))) }
{
    write_all_ends(form, trees, writer)
}
