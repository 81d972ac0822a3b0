//! Writing a proof, which is read again as it was.

ghost use Rattle.std.specs.Prelude.{◌≡◌, ◌<◌, ◌≤◌, ℕ, List, length, Result, Ok, IfOk};
ghost use Rattle.heap_formula.specs.Words.{Each};
ghost use Rattle.cyc_lex.specs.declared.fault.ReadFault.{ReadFault};
ghost use Rattle.fo_formula.specs.declared.nodes.FoFile.{FoFile as Proof};
ghost use Rattle.fo_formula.specs.Nodes.{FoNode};
ghost use Rattle.fo_logic.specs.Limits.{IsNodeWithin};
ghost use Rattle.fo_file.specs.declared.values.problem.FoProblem.{FoProblem as Question};
ghost use Rattle.fo_file.specs.Questions.{IsFoQuestion};
ghost use Rattle.fo_file.specs.Reading.{text_of_file, IsRead, IsReadAgain, IsWritable, IsWritableProblem, Reads};

use crate::values::file_tree;
use cyc_basics::limits::MOST_NODES;
use cyc_basics::memory::OutOfMemory;
use fo_formula::FoFile;
use fo_syntax::proofs::write_tree;
use std::alloc::Global;

/// The text of a proof in the written form: its tokens with one space between neighbours but where the format has none,
/// and a line feed after each `;`.
pub fn write_fo(alloc: Global, file: &FoFile) -> Result<Vec<u8>, OutOfMemory>
    requires { IsWritable file.now }
    ensures text { IfOk result (λ bytes. bytes.items ≡ text_of_file file.now) }
    ensures spells { IfOk result (λ bytes. IsRead bytes.items (Ok file.now)) }
{
    let tree = file_tree(alloc, file)?;
    write_tree(alloc, &tree)
}

/// Whatever is read of a proof's text is that proof, unless memory runs out. The function does nothing.
pub fn written_files_are_read_again()
    ensures { (f : Proof) (bytes : List ℕ) (answer : Result Proof ReadFault)
        → IsWritable f → bytes ≡ text_of_file f → Reads bytes answer → IsReadAgain f answer }
{}

/// Bytes spell at most one proof. The function does nothing.
pub fn bytes_spell_one_file()
    ensures { (bytes : List ℕ) (f g : Proof) → IsRead bytes (Ok f) → IsRead bytes (Ok g) → f ≡ g }
{}

/// Nodes within the limits make a proof over the theory of a problem that was read, and that proof has a text. The
/// function does nothing.
pub fn proofs_of_problems_have_texts()
    ensures { (p : Question) (nodes : List FoNode)
        → IsFoQuestion p → IsWritableProblem p → 0 < length nodes → length nodes ≤ MOST_NODES
        → Each (IsNodeWithin p.theory) nodes → IsWritable (record { theory = p.theory; nodes = nodes }) }
{}
