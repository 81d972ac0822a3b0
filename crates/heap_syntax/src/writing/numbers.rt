//! Writing numbers without a word between them, in brackets, and as premises.

ghost use Rattle.std.specs.Prelude.{◌≡◌, OnOk};
ghost use Rattle.cyc_lex.specs.Writing.{write_all};
ghost use Rattle.heap_syntax.specs.Numbers.{numbers, bracketed, premises};

use cyc_basics::memory::OutOfMemory;
use cyc_lex::WordWriter;

#[tactic(auto, unfolding(crate::specs::Numbers::numbers))]
fn write_numbers(trees: &[u32], writer: &mut WordWriter) -> Result<(), OutOfMemory>
    ensures { OnOk result (writer.new ≡ write_all writer.old (numbers.words trees.now)) }
{
    for tree in trees {
        writer.number(*tree)?;
    }
    Ok(())
}

/// Writes numbers in brackets.
#[tactic(auto, using(cyc_lex::proofs::WritingLaws::write_all_on), unfolding(crate::specs::Numbers::bracketed, cyc_lex::specs::Writing::write_all))]
pub fn write_bracketed(trees: &[u32], writer: &mut WordWriter) -> Result<(), OutOfMemory>
    ensures { OnOk result (writer.new ≡ write_all writer.old (bracketed.words trees.now)) }
{
    writer.symbol("[")?;
    write_numbers(trees, writer)?;
    writer.symbol("]")
}

/// Writes the premises of a node, and the `;` after them.
#[tactic(auto, using(cyc_lex::proofs::WritingLaws::write_all_on), unfolding(crate::specs::Numbers::premises, cyc_lex::specs::Writing::write_all))]
pub fn write_premises(trees: &[u32], writer: &mut WordWriter) -> Result<(), OutOfMemory>
    ensures { OnOk result (writer.new ≡ write_all writer.old (premises.words trees.now)) }
{
    match trees {
        [] => writer.symbol(";"),
        [first, others @ ..] => {
            writer.name("to")?;
            writer.number(*first)?;
            write_numbers(others, writer)?;
            writer.symbol(";")
        }
    }
}
