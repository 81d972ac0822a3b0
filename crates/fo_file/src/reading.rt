//! Reading a proof: its tokens, its tree, the first flaw of the tree, and its value.

ghost use Rattle.std.specs.Prelude.{◌≡◌, ◌-◌, ◌<◌, ◌^◌, None, length, map, IfOk};
ghost use Rattle.cyc_lex.specs.Word.{EndsOnce, word_of};
ghost use Rattle.fo_logic.specs.Files.{IsFoProof};
ghost use Rattle.fo_syntax.specs.ProofGrammar.{file};
ghost use Rattle.fo_syntax.specs.ProofTrees.{file_of};
ghost use Rattle.fo_file.specs.Flaws.{constructor_heads, predicate_heads, file_flaw as first_flaw};
ghost use Rattle.fo_file.specs.Reading.{IsFileOf, IsWritable, ReadsFrom, Reads};

use crate::values::file_value;
use crate::walk::{Names, file_flaw};
use cyc_basics::memory::OutOfMemory;
use cyc_lex::{ReadFault, Tokens, tokens};
use fo_formula::FoFile;
use fo_syntax::proofs::{FileTree, read_tree};
use heap_reader::flaw_fault;
use std::alloc::Global;

/// The proof that a tree without a flaw says.
fn file_of_tree(
    alloc: Global,
    names: &Names<'_>,
    tree: &FileTree<'_>,
) -> Result<FoFile, OutOfMemory>
    requires constructors { names.now.constructors ≡ constructor_heads (file_of tree.now).constructors }
    requires predicates { names.now.predicates ≡ predicate_heads (file_of tree.now).definitions }
    requires fits { file.fits (file_of tree.now) }
    requires right { first_flaw (file_of tree.now) ≡ None }
    ensures says { IfOk result (IsFileOf (file_of tree.now)) }
    ensures proof { IfOk result IsFoProof }
    ensures writable { IfOk result IsWritable }
{
    file_value(alloc, &names.constructors, &names.predicates, tree)
}

fn read_tokens(alloc: Global, tokens: &Tokens<'_>) -> Result<FoFile, ReadFault>
    requires few { length tokens.now < 2 ^ 32 }
    requires words { EndsOnce (map word_of tokens.now) }
    ensures reads { ReadsFrom tokens.now result }
    ensures proof { IfOk result IsFoProof }
    ensures writable { IfOk result IsWritable }
{
    let tree = read_tree(alloc, tokens)?;
    let names = Names::new(alloc, &tree.constructors, &tree.definitions)?;
    if let Some(flaw) = file_flaw(alloc, &names, &tree)? {
        return Err(flaw_fault(tokens, flaw));
    }
    Ok(file_of_tree(alloc, &names, &tree)?)
}

/// The proof that the bytes spell, or the first fault of the text: of its tokens, then of its grammar, then of what it
/// says, each at the first place where it stands.
pub fn read_fo(alloc: Global, bytes: &[u8]) -> Result<FoFile, ReadFault>
    requires { length bytes.now < 2 ^ 32 - 1 }
    ensures reads { Reads bytes.now result }
    ensures proof { IfOk result IsFoProof }
    ensures writable { IfOk result IsWritable }
{
    let tokens = tokens(alloc, bytes)?;
    read_tokens(alloc, &tokens)
}
