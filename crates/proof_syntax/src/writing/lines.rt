//! Writing the lines of a program.

ghost use Rattle.std.specs.Prelude.{◌≡◌, map, OnOk};
ghost use Rattle.cyc_lex.specs.Writing.{write_all};
ghost use Rattle.heap_syntax.specs.LineGrammar.{line, lines};
ghost use Rattle.heap_syntax.specs.LineTrees.{line_of};

use crate::writing::commands::write_command;
use cyc_basics::memory::OutOfMemory;
use cyc_lex::WordWriter;
use heap_syntax::Version;
use heap_syntax::lines::{LineTree, WrittenVariable};

#[tactic(auto, using(cyc_lex::proofs::WritingLaws::write_all_on), unfolding(heap_syntax::specs::LineGrammar::line, cyc_lex::specs::Writing::write_all))]
fn write_line<'a, F: WrittenVariable<'a>>(
    form: &F,
    version: Version,
    tree: LineTree<F::Variable>,
    writer: &mut WordWriter,
) -> Result<(), OutOfMemory>
    requires { (line version (F.variables form.now)).fits (line_of F.seen tree) }
    ensures { OnOk result
        (writer.new ≡ write_all writer.old ((line version (F.variables form.now)).words (line_of F.seen tree))) }
{
    writer.name("line")?;
    writer.number(tree.number)?;
    writer.symbol(":")?;
    write_command(form, version, tree.command, writer)
}

/// Writes the lines of a program of a version.
#[tactic(auto, unfolding(heap_syntax::specs::LineGrammar::lines))]
pub fn write_lines<'a, F: WrittenVariable<'a>>(
    form: &F,
    version: Version,
    trees: &[LineTree<F::Variable>],
    writer: &mut WordWriter,
) -> Result<(), OutOfMemory>
    requires { (lines version (F.variables form.now)).fits (map (line_of F.seen) trees.now) }
    ensures { OnOk result
        (writer.new ≡ write_all writer.old
        ((lines version (F.variables form.now)).words (map (line_of F.seen) trees.now))) }
{
    for tree in trees {
        write_line(form, version, *tree, writer)?;
    }
    Ok(())
}
