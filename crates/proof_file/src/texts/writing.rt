// Writing a proof file, which is read again as it was.
ghost use Rattle.std.specs.Prelude.{◌≡◌, ℕ, List, Result, Ok, IfOk};
ghost use Rattle.cyc_lex.specs.declared.fault.ReadFault.{ReadFault};
ghost use Rattle.proof_file.specs.declared.file.ProofFile.{ProofFile};
ghost use Rattle.proof_file.specs.Written.{text_of_file};
ghost use Rattle.proof_file.specs.Reading.{AreSame, IsRead, Reads, IsReadAgain};

use crate::ProofFile;
use crate::texts::trees::file_tree;
use cyc_basics::memory::OutOfMemory;
use proof_syntax::writing::write_tree;
use std::alloc::Global;

/// The text of a file in the written form: its tokens with one space between neighbours but where the format has none,
/// and a line feed after each `;`.
pub fn write_file(alloc: Global, file: &ProofFile) -> Result<Vec<u8>, OutOfMemory>
    ensures text { IfOk result (λ bytes. bytes.items
        ≡ text_of_file file.now.version file.now.defs.list file.now.program file.now.nodes) }
    ensures spells { IfOk result (λ bytes. IsRead bytes.items (Ok file.now)) }
{
    let tree = file_tree(alloc, file)?;
    write_tree(alloc, &tree)
}

/// Whatever is read of a file's text is that file, unless memory runs out. The function does nothing.
pub fn written_files_are_read_again()
    ensures { (f : ProofFile) (bytes : List ℕ) (answer : Result ProofFile ReadFault)
        → bytes ≡ text_of_file f.version f.defs.list f.program f.nodes → Reads bytes answer → IsReadAgain f answer }
{}

/// Bytes spell at most one file. The function does nothing.
pub fn bytes_spell_one_file()
    ensures { (bytes : List ℕ) (f g : ProofFile) → IsRead bytes (Ok f) → IsRead bytes (Ok g) → AreSame f g }
{}
