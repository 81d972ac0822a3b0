// Reading a proof file: its tokens, its tree, the first flaw of the tree, and its value.
ghost use Rattle.std.specs.Prelude.{◌≡◌, ◌-◌, ◌<◌, ◌^◌, None, length, map, IfOk};
ghost use Rattle.cyc_lex.specs.Word.{EndsOnce, word_of};
ghost use Rattle.proof_syntax.specs.Grammar.{file};
ghost use Rattle.proof_syntax.specs.Trees.{file_of};
ghost use Rattle.proof_file.specs.Flaws.{headings, file_flaw as first_flaw};
ghost use Rattle.proof_file.specs.Reading.{IsFileOf, ReadsFrom, Reads};

use crate::texts::values::nodes;
use crate::texts::walk::file_flaw;
use crate::{ProofFile, file_of_values, front_values};
use cyc_basics::memory::OutOfMemory;
use cyc_lex::{ReadFault, Tokens, tokens};
use heap_reader::definitions::heads;
use heap_reader::{Heads, flaw_fault};
use proof_syntax::{FileTree, read_tree};
use std::alloc::Global;

/// The file that a tree without a flaw says.
fn file_of_tree(
    alloc: Global,
    heads: &Heads<'_>,
    tree: &FileTree<'_>,
) -> Result<ProofFile, OutOfMemory>
    requires known { heads.now ≡ headings (file_of tree.now).definitions }
    requires fits { file.fits (file_of tree.now) }
    requires right { first_flaw (file_of tree.now) ≡ None }
    ensures { IfOk result (IsFileOf (file_of tree.now)) }
{
    let front = front_values(
        alloc,
        heads,
        tree.version,
        &tree.definitions,
        &tree.lines,
        &tree.ends,
    )?;
    let nodes = nodes(alloc, heads, &tree.nodes)?;
    Ok(file_of_values(tree.version, front.defs, front.program, nodes))
}

fn read_tokens(alloc: Global, tokens: &Tokens<'_>) -> Result<ProofFile, ReadFault>
    requires few { length tokens.now < 2 ^ 32 }
    requires words { EndsOnce (map word_of tokens.now) }
    ensures { ReadsFrom tokens.now result }
{
    let tree = read_tree(alloc, tokens)?;
    let heads = heads(alloc, &tree.definitions)?;
    if let Some(flaw) = file_flaw(&heads, &tree) {
        return Err(flaw_fault(tokens, flaw));
    }
    Ok(file_of_tree(alloc, &heads, &tree)?)
}

/// The proof file that the bytes spell, or the first fault of the text: of its tokens, then of its grammar, then of
/// what it says, each at the first place where it stands.
pub fn read_file(alloc: Global, bytes: &[u8]) -> Result<ProofFile, ReadFault>
    requires { length bytes.now < 2 ^ 32 - 1 }
    ensures { Reads bytes.now result }
{
    let tokens = tokens(alloc, bytes)?;
    read_tokens(alloc, &tokens)
}
