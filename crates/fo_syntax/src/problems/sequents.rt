//! Sequents.

ghost use Rattle.std.specs.Prelude.{◌≡◌, OnOk};
ghost use Rattle.cyc_lex.specs.Writing.{write_all};
ghost use Rattle.cyc_grammar.specs.Giving.{Gives};
ghost use Rattle.fo_syntax.specs.ProblemGrammar.{sequent};
ghost use Rattle.fo_syntax.specs.ProblemTrees.{sequent_of};

use crate::problems::atom_lists::{atoms_or, write_atoms_or};
use crate::problems::tree::SequentTree;
use cyc_basics::memory::OutOfMemory;
use cyc_grammar::{Cursor, Refusal};
use cyc_lex::WordWriter;
use std::alloc::Global;

#[tactic(auto, unfolding(crate::specs::ProblemGrammar::sequent))]
pub fn sequent<'a>(alloc: Global, cursor: &mut Cursor<'_, 'a>) -> Result<SequentTree<'a>, Refusal>
    ensures { Gives (λ x. (sequent_of x, cursor.new)) result (sequent.read cursor.old) }
{
    let left = atoms_or(alloc, "true", false, cursor)?;
    cursor.symbol("|-")?;
    let right = atoms_or(alloc, "false", false, cursor)?;
    Ok(SequentTree { left, right })
}

#[tactic(auto, using(cyc_lex::proofs::WritingLaws::write_all_on), unfolding(crate::specs::ProblemGrammar::sequent, cyc_lex::specs::Writing::write_all))]
pub fn write_sequent(
    alloc: Global,
    tree: &SequentTree<'_>,
    writer: &mut WordWriter,
) -> Result<(), OutOfMemory>
    requires { sequent.fits (sequent_of tree.now) }
    ensures { OnOk result (writer.new ≡ write_all writer.old (sequent.words (sequent_of tree.now))) }
{
    write_atoms_or(alloc, "true", false, &tree.left, writer)?;
    writer.symbol("|-")?;
    write_atoms_or(alloc, "false", false, &tree.right, writer)
}
